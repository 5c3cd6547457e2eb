// Questions on a card and its tile index.
ghost use Rattle.std.specs.Prelude.{◌≡◌};
ghost use Rattle.card.specs.Read.{card_read};
ghost use Rattle.tiles.specs.Check.{check_of, marks_of};
ghost use Rattle.tiles.specs.LookUp.{number_of, bands_of};
ghost use Rattle.tiles.specs.Window.{window_of};
ghost use Rattle.fordcask.specs.Entry.{asked, on_reading, verdict_block};
ghost use Rattle.fordcask.specs.Tiles.{bands_block, window_block, tile_block};

use arc::Series;
use fordcask::{BandsOnCard, TileParts, VerdictParts, WindowOnCard};

/// Whether each number 1 to count occurs exactly once. Refuses reading's numbers, then 6, 15; on those and 6 the marks stay.
#[unsafe(no_mangle)]
pub extern "C" fn fordcask_index_check(
    series: Series,
    card: &[u8],
    index: &[u32],
    count: u64,
    marks: &mut [u8],
) -> VerdictParts
    ensures answer { result ≡ verdict_block (asked (card_read series card.now) (λ k. check_of k index.now count marks.old)) }
    ensures left { marks.new ≡ on_reading (card_read series card.now) marks.old (λ k. marks_of k index.now count marks.old) }
{
    fordcask::fordcask_index_check(series, card, index, count, marks)
}

/// The stored number of a pixel's tile, and where its bytes stand in the store. Refuses reading's numbers, then 6, 12, 13, 14, 15.
#[unsafe(no_mangle)]
pub extern "C" fn fordcask_tile(
    series: Series,
    card: &[u8],
    index: &[u32],
    count: u64,
    store: &[u8],
    row: i64,
    column: i64,
) -> TileParts
    ensures { result ≡ tile_block (asked (card_read series card.now)
        (λ k. number_of k index.now count store.now row column)) }
{
    fordcask::fordcask_tile(series, card, index, count, store, row, column)
}

/// The band values of a pixel. Refuses reading's numbers, then 6, 12, 13, 14, 15.
#[unsafe(no_mangle)]
pub extern "C" fn fordcask_bands(
    series: Series,
    card: &[u8],
    index: &[u32],
    count: u64,
    store: &[u8],
    row: i64,
    column: i64,
) -> BandsOnCard
    ensures { result ≡ bands_block (asked (card_read series card.now)
        (λ k. bands_of k index.now count store.now row column)) }
{
    fordcask::fordcask_bands(series, card, index, count, store, row, column)
}

/// The first tile of a window, in reading order, that is not stored. Refuses reading's numbers, then 6, 12, 15.
#[unsafe(no_mangle)]
pub extern "C" fn fordcask_window(
    series: Series,
    card: &[u8],
    index: &[u32],
    count: u64,
    top: u64,
    left: u64,
    height: u64,
    width: u64,
) -> WindowOnCard
    ensures { result ≡ window_block (asked (card_read series card.now)
        (λ k. window_of k index.now count top left height width)) }
{
    fordcask::fordcask_window(series, card, index, count, top, left, height, width)
}
