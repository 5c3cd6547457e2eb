// Questions on a card, its tile index and the corrections beside it.
ghost use Rattle.std.specs.Prelude.{◌≡◌};
ghost use Rattle.card.specs.Read.{card_read};
ghost use Rattle.tiles.specs.Corrections.{source_of, either_bands_of, corrected_window_of, setting_of, set_of};
ghost use Rattle.fordcask.specs.Entry.{asked, on_reading, verdict_block};
ghost use Rattle.fordcask.specs.Tiles.{bands_block, window_block, corrected_tile_block};

use arc::Series;
use fordcask::{BandsOnCard, CorrectedTile, VerdictParts, WindowOnCard};

/// The store that holds a pixel's tile, its number there and its bytes. Refuses reading's numbers, then 6, 6, 12, 13, 15 of a correction, 14, 15.
#[unsafe(no_mangle)]
pub extern "C" fn fordcask_corrected_tile(
    series: Series,
    card: &[u8],
    index: &[u32],
    count: u64,
    store: &[u8],
    corrections: &[u32],
    corrected: u64,
    second: &[u8],
    row: i64,
    column: i64,
) -> CorrectedTile
    ensures { result ≡ corrected_tile_block (asked (card_read series card.now)
        (λ k. source_of k index.now count store.now corrections.now corrected second.now row column)) }
{
    fordcask::fordcask_corrected_tile(
        series,
        card,
        index,
        count,
        store,
        corrections,
        corrected,
        second,
        row,
        column,
    )
}

/// The band values of a pixel, corrected first. Refuses reading's numbers, then 6, 6, 12, 13, 15 of a correction, 14, 15.
#[unsafe(no_mangle)]
pub extern "C" fn fordcask_corrected_bands(
    series: Series,
    card: &[u8],
    index: &[u32],
    count: u64,
    store: &[u8],
    corrections: &[u32],
    corrected: u64,
    second: &[u8],
    row: i64,
    column: i64,
) -> BandsOnCard
    ensures { result ≡ bands_block (asked (card_read series card.now)
        (λ k. either_bands_of k index.now count store.now corrections.now corrected second.now row column)) }
{
    fordcask::fordcask_corrected_bands(
        series,
        card,
        index,
        count,
        store,
        corrections,
        corrected,
        second,
        row,
        column,
    )
}

/// The first tile of a window, in reading order, that is neither corrected nor stored. Refuses reading's numbers, then 6, 6, 12, 15.
#[unsafe(no_mangle)]
pub extern "C" fn fordcask_corrected_window(
    series: Series,
    card: &[u8],
    index: &[u32],
    count: u64,
    corrections: &[u32],
    corrected: u64,
    top: u64,
    left: u64,
    height: u64,
    width: u64,
) -> WindowOnCard
    ensures { result ≡ window_block (asked (card_read series card.now)
        (λ k. corrected_window_of k index.now count corrections.now corrected top left height width)) }
{
    fordcask::fordcask_corrected_window(
        series,
        card,
        index,
        count,
        corrections,
        corrected,
        top,
        left,
        height,
        width,
    )
}

/// Sets a tile's entry in the corrections, 0 to take one back. Refuses reading's numbers, then 6, 12, 15; in a refusal the list stays.
#[unsafe(no_mangle)]
pub extern "C" fn fordcask_set_correction(
    series: Series,
    card: &[u8],
    corrections: &mut [u32],
    corrected: u64,
    tile: u64,
    number: u64,
) -> VerdictParts
    ensures answer { result ≡ verdict_block (asked (card_read series card.now) (λ k. setting_of k corrections.old corrected tile number)) }
    ensures left { corrections.new ≡ on_reading (card_read series card.now) corrections.old (λ k. set_of k corrections.old corrected tile number) }
{
    fordcask::fordcask_set_correction(series, card, corrections, corrected, tile, number)
}
