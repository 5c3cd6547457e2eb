// Lists of pixels and of positions of a card, handed in as its bytes with scale, factor and zone.
ghost use Rattle.std.specs.Prelude.{◌≡◌, length};
ghost use Rattle.card.specs.declared.Pair.{Pair};
ghost use Rattle.card.specs.Read.{card_read};
ghost use Rattle.lists.specs.Lists.{lists_verdict, report_at, position_report_at, pixel_report_at, values_left, numbers_left};
ghost use Rattle.fordcask.specs.Entry.{asked, on_reading, verdict_block};

use crate::parts::VerdictParts;
use crate::read::OnCard;
use arc::Series;
use card::{Card, Pair, Reading};
use lists::Asked;

/// The answers to the entries of a list, in either pair, the card read once.
fn list_on_card(
    series: Series,
    card: &[u8],
    pair: Pair,
    question: Asked,
    list: &[i64],
    values: &mut [i64],
    numbers: &mut [u32],
) -> VerdictParts
    ensures answer { result ≡ verdict_block (asked (card_read series card.now)
        (λ k. lists_verdict (length list.now) (length values.old) (length numbers.old))) }
    ensures values { values.new ≡ on_reading (card_read series card.now) values.old
        (λ k. values_left (report_at pair question k) list.now values.old numbers.old) }
    ensures numbers { numbers.new ≡ on_reading (card_read series card.now) numbers.old
        (λ k. numbers_left (report_at pair question k) list.now values.old numbers.old) }
{
    let answer = match Card::read(series, card) {
        Ok(Reading { card, blanks }) => {
            lists::answer_list(pair, card, question, list, values, numbers).map(|answer| OnCard {
                answer,
                blanks,
            })
        }
        Err(e) => Err(e),
    };
    answer.into()
}

/// The positions of the centres of a list of pixels, the card read once. Refuses reading's numbers, then 6; on a refusal both lists stay.
pub fn fordcask_positions(
    series: Series,
    card: &[u8],
    pixels: &[i64],
    positions: &mut [i64],
    numbers: &mut [u32],
) -> VerdictParts
    ensures answer { result ≡ verdict_block (asked (card_read series card.now)
        (λ k. lists_verdict (length pixels.now) (length positions.old) (length numbers.old))) }
    ensures positions { positions.new ≡ on_reading (card_read series card.now) positions.old
        (λ k. values_left (position_report_at Pair.Centre k) pixels.now positions.old numbers.old) }
    ensures numbers { numbers.new ≡ on_reading (card_read series card.now) numbers.old
        (λ k. numbers_left (position_report_at Pair.Centre k) pixels.now positions.old numbers.old) }
{
    list_on_card(
        series,
        card,
        Pair::Centre,
        Asked::Positions,
        pixels,
        positions,
        numbers,
    )
}

/// The positions of the corners, likewise.
pub fn fordcask_corner_positions(
    series: Series,
    card: &[u8],
    pixels: &[i64],
    positions: &mut [i64],
    numbers: &mut [u32],
) -> VerdictParts
    ensures answer { result ≡ verdict_block (asked (card_read series card.now)
        (λ k. lists_verdict (length pixels.now) (length positions.old) (length numbers.old))) }
    ensures positions { positions.new ≡ on_reading (card_read series card.now) positions.old
        (λ k. values_left (position_report_at Pair.Corner k) pixels.now positions.old numbers.old) }
    ensures numbers { numbers.new ≡ on_reading (card_read series card.now) numbers.old
        (λ k. numbers_left (position_report_at Pair.Corner k) pixels.now positions.old numbers.old) }
{
    list_on_card(
        series,
        card,
        Pair::Corner,
        Asked::Positions,
        pixels,
        positions,
        numbers,
    )
}

/// The pixels that contain a list of positions, likewise.
pub fn fordcask_pixels(
    series: Series,
    card: &[u8],
    positions: &[i64],
    pixels: &mut [i64],
    numbers: &mut [u32],
) -> VerdictParts
    ensures answer { result ≡ verdict_block (asked (card_read series card.now)
        (λ k. lists_verdict (length positions.now) (length pixels.old) (length numbers.old))) }
    ensures pixels { pixels.new ≡ on_reading (card_read series card.now) pixels.old
        (λ k. values_left (pixel_report_at Pair.Centre k) positions.now pixels.old numbers.old) }
    ensures numbers { numbers.new ≡ on_reading (card_read series card.now) numbers.old
        (λ k. numbers_left (pixel_report_at Pair.Centre k) positions.now pixels.old numbers.old) }
{
    list_on_card(
        series,
        card,
        Pair::Centre,
        Asked::Pixels,
        positions,
        pixels,
        numbers,
    )
}

/// The pixels whose corners are nearest, likewise.
pub fn fordcask_corner_pixels(
    series: Series,
    card: &[u8],
    positions: &[i64],
    pixels: &mut [i64],
    numbers: &mut [u32],
) -> VerdictParts
    ensures answer { result ≡ verdict_block (asked (card_read series card.now)
        (λ k. lists_verdict (length positions.now) (length pixels.old) (length numbers.old))) }
    ensures pixels { pixels.new ≡ on_reading (card_read series card.now) pixels.old
        (λ k. values_left (pixel_report_at Pair.Corner k) positions.now pixels.old numbers.old) }
    ensures numbers { numbers.new ≡ on_reading (card_read series card.now) numbers.old
        (λ k. numbers_left (pixel_report_at Pair.Corner k) positions.now pixels.old numbers.old) }
{
    list_on_card(
        series,
        card,
        Pair::Corner,
        Asked::Pixels,
        positions,
        pixels,
        numbers,
    )
}
