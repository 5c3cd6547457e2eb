// Questions on a card and its tile index as presence bits.
ghost use Rattle.std.specs.Prelude.{◌≡◌};
ghost use Rattle.card.specs.Read.{card_read};
ghost use Rattle.tiles.specs.Bits.{bits_number_of, bits_bands_of, bits_window_of};
ghost use Rattle.convert.specs.Convert.{to_bits_of, bits_left, to_list_of, list_left};
ghost use Rattle.fordcask.specs.Entry.{asked, on_reading, verdict_block};
ghost use Rattle.fordcask.specs.Tiles.{bands_block, window_block, tile_block};

use crate::parts::{BandsOnCard, TileParts, VerdictParts, WindowOnCard};
use crate::read::{OnCard, on_card};
use crate::told_tiles::tile_block;
use arc::Series;
use card::{Card, Reading};
use tiles::{ByBits, Stores, Window};

/// Writes the presence bits of an index in reading order. Refuses reading's numbers, then 6, 20; in a refusal the words stay.
pub fn fordcask_to_bits(
    series: Series,
    card: &[u8],
    index: &[u32],
    words: &mut [u64],
) -> VerdictParts
    ensures answer { result ≡ verdict_block (asked (card_read series card.now) (λ k. to_bits_of k index.now words.old)) }
    ensures left { words.new ≡ on_reading (card_read series card.now) words.old (λ k. bits_left k index.now words.old) }
{
    let answer = match Card::read(series, card) {
        Ok(Reading { card, blanks }) => {
            convert::to_bits(card, index, words).map(|answer| OnCard { answer, blanks })
        }
        Err(e) => Err(e),
    };
    answer.into()
}

/// Writes the index of presence bits. Refuses reading's numbers, then 6, 21; in a refusal the index stays.
pub fn fordcask_to_list(
    series: Series,
    card: &[u8],
    words: &[u64],
    index: &mut [u32],
) -> VerdictParts
    ensures answer { result ≡ verdict_block (asked (card_read series card.now) (λ k. to_list_of k words.now index.old)) }
    ensures left { index.new ≡ on_reading (card_read series card.now) index.old (λ k. list_left k words.now index.old) }
{
    let answer = match Card::read(series, card) {
        Ok(Reading { card, blanks }) => {
            convert::to_list(card, words, index).map(|answer| OnCard { answer, blanks })
        }
        Err(e) => Err(e),
    };
    answer.into()
}

/// The stored number of a pixel's tile, by presence bits, and where its bytes stand in the store. Refuses reading's numbers, then 6, 21, 12, 13, 14, 15.
pub fn fordcask_bits_tile(
    series: Series,
    card: &[u8],
    words: &[u64],
    count: u64,
    store: &[u8],
    row: i64,
    column: i64,
) -> TileParts
    ensures { result ≡ tile_block (asked (card_read series card.now)
        (λ k. bits_number_of k words.now count store.now row column)) }
{
    tile_block(on_card(series, card, |k| {
        tiles::look_up(
            k,
            &ByBits { words, count },
            Stores {
                base: store,
                corrections: &[],
            },
            row,
            column,
        )
    }))
}

/// The band values of a pixel, by presence bits. Refuses reading's numbers, then 6, 21, 12, 13, 14, 15.
pub fn fordcask_bits_bands(
    series: Series,
    card: &[u8],
    words: &[u64],
    count: u64,
    store: &[u8],
    row: i64,
    column: i64,
) -> BandsOnCard
    ensures { result ≡ bands_block (asked (card_read series card.now)
        (λ k. bits_bands_of k words.now count store.now row column)) }
{
    on_card(series, card, |k| {
        tiles::band_values(
            k,
            &ByBits { words, count },
            Stores {
                base: store,
                corrections: &[],
            },
            row,
            column,
        )
    })
    .into()
}

/// The first tile of a window, in reading order, that is not stored, by presence bits. Refuses reading's numbers, then 6, 21, 12, 15.
pub fn fordcask_bits_window(
    series: Series,
    card: &[u8],
    words: &[u64],
    count: u64,
    top: u64,
    left: u64,
    height: u64,
    width: u64,
) -> WindowOnCard
    ensures { result ≡ window_block (asked (card_read series card.now)
        (λ k. bits_window_of k words.now count top left height width)) }
{
    on_card(series, card, |k| {
        tiles::first_missing(
            k,
            &ByBits { words, count },
            Window {
                top,
                left,
                height,
                width,
            },
        )
    })
    .into()
}
