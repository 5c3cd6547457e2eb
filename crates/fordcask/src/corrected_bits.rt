// Questions on a card, its tile index as presence bits and the corrections beside it.
ghost use Rattle.std.specs.Prelude.{◌≡◌};
ghost use Rattle.card.specs.Read.{card_read};
ghost use Rattle.tiles.specs.Bits.{bits_source_of, bits_either_bands_of, corrected_bits_window_of};
ghost use Rattle.fordcask.specs.Entry.{asked};
ghost use Rattle.fordcask.specs.Tiles.{bands_block, window_block, corrected_tile_block};

use crate::parts::{BandsOnCard, CorrectedTile, WindowOnCard};
use crate::read::on_card;
use crate::told_tiles::corrected_tile_block;
use arc::Series;
use tiles::{ByBits, Corrected, Stores, Window};

/// The store that holds a pixel's tile, its number there and its bytes. Refuses reading's numbers, then 6, 6, 21, 12, 13, 15 of a correction, 14, 15.
pub fn fordcask_corrected_bits_tile(
    series: Series,
    card: &[u8],
    words: &[u64],
    count: u64,
    store: &[u8],
    corrections: &[u32],
    corrected: u64,
    second: &[u8],
    row: i64,
    column: i64,
) -> CorrectedTile
    ensures { result ≡ corrected_tile_block (asked (card_read series card.now)
        (λ k. bits_source_of k words.now count store.now corrections.now corrected second.now row column)) }
{
    corrected_tile_block(on_card(series, card, |k| {
        tiles::look_up(
            k,
            &Corrected {
                base: ByBits { words, count },
                entries: corrections,
                count: corrected,
            },
            Stores {
                base: store,
                corrections: second,
            },
            row,
            column,
        )
    }))
}

/// The band values of a pixel, corrected first. Refuses reading's numbers, then 6, 6, 21, 12, 13, 15 of a correction, 14, 15.
pub fn fordcask_corrected_bits_bands(
    series: Series,
    card: &[u8],
    words: &[u64],
    count: u64,
    store: &[u8],
    corrections: &[u32],
    corrected: u64,
    second: &[u8],
    row: i64,
    column: i64,
) -> BandsOnCard
    ensures { result ≡ bands_block (asked (card_read series card.now)
        (λ k. bits_either_bands_of k words.now count store.now corrections.now corrected second.now row column)) }
{
    on_card(series, card, |k| {
        tiles::band_values(
            k,
            &Corrected {
                base: ByBits { words, count },
                entries: corrections,
                count: corrected,
            },
            Stores {
                base: store,
                corrections: second,
            },
            row,
            column,
        )
    })
    .into()
}

/// The first tile of a window, in reading order, that is neither corrected nor stored. Refuses reading's numbers, then 6, 6, 21, 12, 15.
pub fn fordcask_corrected_bits_window(
    series: Series,
    card: &[u8],
    words: &[u64],
    count: u64,
    corrections: &[u32],
    corrected: u64,
    top: u64,
    left: u64,
    height: u64,
    width: u64,
) -> WindowOnCard
    ensures { result ≡ window_block (asked (card_read series card.now)
        (λ k. corrected_bits_window_of k words.now count corrections.now corrected top left height width)) }
{
    on_card(series, card, |k| {
        tiles::first_missing(
            k,
            &Corrected {
                base: ByBits { words, count },
                entries: corrections,
                count: corrected,
            },
            Window {
                top,
                left,
                height,
                width,
            },
        )
    })
    .into()
}
