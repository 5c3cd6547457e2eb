// Questions on a card, handed in as its bytes with scale, factor and zone.
ghost use Rattle.std.specs.Prelude.{◌≡◌};
ghost use Rattle.card_text.specs.Write.{write_of, out_of};
ghost use Rattle.card.specs.declared.Pair.{Pair};
ghost use Rattle.card.specs.Read.{card_read, card_read_strict};
ghost use Rattle.card.specs.Grid.{place_of, position_of, pixel_of};
ghost use Rattle.fordcask.specs.Entry.{asked, asked_over, card_block, record_from, refusal_block, place_block, position_block, pixel_block, overview_block};

use crate::parts::{
    CardParts, OverviewOnCards, PixelOnCard, PlaceOnCard, PositionOnCard, RecordParts, RefusalParts,
};
use crate::read::{OnCards, on_card};
use arc::{Refusal, Series};
use card::{Card, Pair, Pixel};
use card_text::Record;

/// Reads a card, in which blanks may stand before a number's digits. Refuses 1, 17, 1, 2, 3, 6, the subfields' 7 and 8, 9, 10, 11.
pub fn fordcask_read_card(series: Series, card: &[u8]) -> CardParts
    ensures { result ≡ card_block (card_read series card.now) }
{
    Card::read(series, card).into()
}

/// Reads a card none of whose numbers may start with a blank. Refuses as `fordcask_read_card`.
pub fn fordcask_read_strict(series: Series, card: &[u8]) -> CardParts
    ensures { result ≡ card_block (card_read_strict series card.now) }
{
    Card::read_strict(series, card).into()
}

/// Writes a card. Refuses 1, 24, 17, 1, 2, 3, 6, NFL, NFC (8), BAD (7), 10, 11; on a refusal the output stays.
pub fn fordcask_write_card(series: Series, r: RecordParts, out: &mut [u8]) -> RefusalParts
    ensures answer { result ≡ refusal_block (write_of series (record_from r) out.old) }
    ensures left { out.new ≡ out_of series (record_from r) out.old }
{
    card_text::write_card(series, Record::from(r), out).into()
}

/// The place of a pixel. Refuses reading's numbers, then 12.
pub fn fordcask_place(series: Series, card: &[u8], row: i64, column: i64) -> PlaceOnCard
    ensures { result ≡ place_block (asked (card_read series card.now) (λ k. place_of k row column)) }
{
    on_card(series, card, |k| k.place(row, column)).into()
}

/// The position of a pixel's centre. Refuses reading's numbers, then 12, 13.
pub fn fordcask_position(series: Series, card: &[u8], row: i64, column: i64) -> PositionOnCard
    ensures { result ≡ position_block (asked (card_read series card.now) (λ k. position_of Pair.Centre k row column)) }
{
    on_card(series, card, |k| k.position(row, column)).into()
}

/// The position of a pixel's corner. Refuses reading's numbers, then 12, 13.
pub fn fordcask_corner_position(
    series: Series,
    card: &[u8],
    row: i64,
    column: i64,
) -> PositionOnCard
    ensures { result ≡ position_block (asked (card_read series card.now) (λ k. position_of Pair.Corner k row column)) }
{
    on_card(series, card, |k| k.position_in(Pair::Corner, row, column)).into()
}

/// The pixel that contains a position. Refuses reading's numbers, then 4, 5, 12, 13.
pub fn fordcask_pixel(series: Series, card: &[u8], lat: i64, lon: i64) -> PixelOnCard
    ensures { result ≡ pixel_block (asked (card_read series card.now) (λ k. pixel_of Pair.Centre k lat lon)) }
{
    on_card(series, card, |k| k.pixel(lat, lon)).into()
}

/// The pixel whose corner is nearest to a position. Refuses reading's numbers, then 4, 5, 12, 13.
pub fn fordcask_corner_pixel(series: Series, card: &[u8], lat: i64, lon: i64) -> PixelOnCard
    ensures { result ≡ pixel_block (asked (card_read series card.now) (λ k. pixel_of Pair.Corner k lat lon)) }
{
    on_card(series, card, |k| k.pixel_in(Pair::Corner, lat, lon)).into()
}

/// The pixel of an overview for a pixel of a chart, each card read first.
fn overview_on(
    series: Series,
    card: &[u8],
    overview_series: Series,
    overview_card: &[u8],
    row: i64,
    column: i64,
) -> Result<OnCards<Pixel>, Refusal>
    ensures { result ≡ asked_over (card_read series card.now) (card_read overview_series overview_card.now) row column }
{
    let chart = Card::read(series, card)?;
    let overview = Card::read(overview_series, overview_card)?;
    Ok(OnCards {
        answer: chart.card.overview_pixel(overview.card, row, column)?,
        blanks: chart.blanks,
        overview_blanks: overview.blanks,
    })
}

/// The overview pixel of a chart's pixel, in the corner pair. Refuses reading's numbers, then 12, 13, of the chart first each time.
pub fn fordcask_overview_pixel(
    series: Series,
    card: &[u8],
    overview_series: Series,
    overview_card: &[u8],
    row: i64,
    column: i64,
) -> OverviewOnCards
    ensures { result ≡ overview_block (asked_over (card_read series card.now) (card_read overview_series overview_card.now) row column) }
{
    overview_on(series, card, overview_series, overview_card, row, column).into()
}
