// Questions on a card and its tile index.
ghost use Rattle.std.specs.Prelude.{◌≡◌};
ghost use Rattle.card.specs.Read.{card_read};
ghost use Rattle.tiles.specs.Check.{check_of, marks_of};
ghost use Rattle.tiles.specs.LookUp.{number_of, bands_of};
ghost use Rattle.tiles.specs.Window.{window_of};
ghost use Rattle.fordcask.specs.Entry.{asked, on_reading, verdict_block};
ghost use Rattle.fordcask.specs.Tiles.{bands_block, window_block, tile_block};

use crate::parts::{BandsOnCard, TileParts, VerdictParts, WindowOnCard};
use crate::read::{OnCard, on_card};
use crate::told_tiles::tile_block;
use arc::Series;
use card::{Card, Reading};
use tiles::{ByList, Stores, Window};

/// Whether each number 1 to count occurs exactly once. Refuses reading's numbers, then 6, 15; on those and 6 the marks stay.
pub fn fordcask_index_check(
    series: Series,
    card: &[u8],
    index: &[u32],
    count: u64,
    marks: &mut [u8],
) -> VerdictParts
    ensures answer { result ≡ verdict_block (asked (card_read series card.now) (λ k. check_of k index.now count marks.old)) }
    ensures left { marks.new ≡ on_reading (card_read series card.now) marks.old (λ k. marks_of k index.now count marks.old) }
{
    let answer = match Card::read(series, card) {
        Ok(Reading { card, blanks }) => {
            tiles::index_check(card, index, count, marks).map(|answer| OnCard { answer, blanks })
        }
        Err(e) => Err(e),
    };
    answer.into()
}

/// The stored number of a pixel's tile, and where its bytes stand in the store. Refuses reading's numbers, then 6, 12, 13, 14, 15.
pub fn fordcask_tile(
    series: Series,
    card: &[u8],
    index: &[u32],
    count: u64,
    store: &[u8],
    row: i64,
    column: i64,
) -> TileParts
    ensures { result ≡ tile_block (asked (card_read series card.now)
        (λ k. number_of k index.now count store.now row column)) }
{
    tile_block(on_card(series, card, |k| {
        tiles::look_up(
            k,
            &ByList {
                entries: index,
                count,
            },
            Stores {
                base: store,
                corrections: &[],
            },
            row,
            column,
        )
    }))
}

/// The band values of a pixel. Refuses reading's numbers, then 6, 12, 13, 14, 15.
pub fn fordcask_bands(
    series: Series,
    card: &[u8],
    index: &[u32],
    count: u64,
    store: &[u8],
    row: i64,
    column: i64,
) -> BandsOnCard
    ensures { result ≡ bands_block (asked (card_read series card.now)
        (λ k. bands_of k index.now count store.now row column)) }
{
    on_card(series, card, |k| {
        tiles::band_values(
            k,
            &ByList {
                entries: index,
                count,
            },
            Stores {
                base: store,
                corrections: &[],
            },
            row,
            column,
        )
    })
    .into()
}

/// The first tile of a window, in reading order, that is not stored. Refuses reading's numbers, then 6, 12, 15.
pub fn fordcask_window(
    series: Series,
    card: &[u8],
    index: &[u32],
    count: u64,
    top: u64,
    left: u64,
    height: u64,
    width: u64,
) -> WindowOnCard
    ensures { result ≡ window_block (asked (card_read series card.now)
        (λ k. window_of k index.now count top left height width)) }
{
    on_card(series, card, |k| {
        tiles::first_missing(
            k,
            &ByList {
                entries: index,
                count,
            },
            Window {
                top,
                left,
                height,
                width,
            },
        )
    })
    .into()
}
