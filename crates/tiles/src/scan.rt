// The window of tiles.
ghost use Rattle.std.specs.Prelude.{◌≡◌, ◌+◌, ltb};
ghost use Rattle.tiles.specs.Window.{window_tiles, scan, window_by};
ghost use Rattle.tiles.specs.Steps.{WindowRows};

use crate::{Said, TileIndex, Window};
use arc::Refusal;
use card::Card;

// Whether from + length is above most.
fn reaches_past(most: u64, from: u64, length: u64) -> bool
    ensures { result ≡ ltb most (from + length) }
{
    most < from || most - from < length
}

// The first tile of a window of the image that is not stored. Refuses `Entry`.
fn missing_in<I: TileIndex>(card: Card, index: &I, window: Window) -> Result<Option<u64>, Refusal>
    requires { WindowRows card window.top window.left window.height window.width }
    ensures { result ≡ scan (I.view index.now card).says (window_tiles card window.top window.left window.height window.width) }
{
    let across = card.fields().nfc;
    let end = index.end(card);
    let mut missing = None;
    // left by a label at the first zero entry, as docs/RULES.md wants a loop of the library to be
    'rows: for r in 0..window.height {
        // counted in 32 bits, as a glance takes a tile: that is faster
        let start = ((window.top + r) * across + window.left) as u32;
        for c in 0..window.width {
            let tile = start + c as u32;
            match index.glance(card, end, tile) {
                Said::Stored(_) => {}
                Said::Missing => {
                    missing = Some(u64::from(tile));
                    break 'rows;
                }
                Said::Above => {
                    return Err(Refusal::Entry {
                        at: u64::from(tile),
                    });
                }
            }
        }
    }
    Ok(missing)
}

/// The first tile of a window, in reading order, that is not stored, by its number from 0 in the image; `None` where all are, or the window is empty. Refuses
/// `Length`, by bits `StrayBit`, then `OutsideTiles`, and `Entry` at a tile whose number is above the count and comes before any missing tile.
#[tactic(auto, unfolding(crate::specs::Window::window_by, crate::specs::Window::view_of))]
pub fn first_missing<I: TileIndex>(
    card: Card,
    index: &I,
    window: Window,
) -> Result<Option<u64>, Refusal>
    ensures { result ≡ window_by card (I.view index.now card) window.top window.left window.height window.width }
{
    index.check(card)?;
    let fields = card.fields();
    if reaches_past(fields.nfl, window.top, window.height)
        || reaches_past(fields.nfc, window.left, window.width)
    {
        return Err(Refusal::OutsideTiles);
    }
    missing_in(card, index, window)
}
