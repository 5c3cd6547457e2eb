ghost use Rattle.std.specs.Prelude.{◌≡◌, ℕ};
ghost use Rattle.card_text.specs.declared.Fields.{Fields};
ghost use Rattle.tiles.specs.declared.Said.{Said};
ghost use Rattle.tiles.specs.Index.{IndexView};
ghost use Rattle.tiles.specs.Steps.{IsHeld, IsGlance};

use crate::{Said, Stores};
use arc::Refusal;
use card::Card;

/// The tile index of an image in any form: a list, presence bits, or either with corrections beside it.
pub trait TileIndex {
    /// What it answers for a card.
    ghost view: { Self → Fields → IndexView };

    /// What `end` answers.
    ghost end: { Self → Fields → ℕ };

    /// What a glance tells of a tile.
    ghost glance: { Self → Fields → ℕ → ℕ → Said };

    /// Whether its lengths are the card's. Refuses `Length`, then `StrayBit`.
    fn check(&self, card: Card) -> Result<(), Refusal>
        ensures { result ≡ (view self.now card).check };

    /// The same, and whether the stores are as long as its counts. Refuses `Length`, then `StrayBit`.
    fn check_with(&self, card: Card, stores: Stores<'_>) -> Result<(), Refusal>
        ensures { result ≡ (view self.now card).check_with stores.entry.base.now stores.entry.corrections.now };

    /// What it says of a tile, by its number from 0 in reading order.
    fn says(&self, card: Card, tile: u32) -> Said
        ensures { result ≡ (view self.now card).says tile };

    /// What a window asks once, for the glances at its tiles; by bits, the stored tiles are those before it whose bit is set.
    fn end(&self, card: Card) -> u64
        ensures { result ≡ end self.now card };

    /// Whether a tile is stored, missing or above the count, `before` being what `end` answers; its number need not be told.
    fn glance(&self, card: Card, before: u64, tile: u32) -> Said
        ensures { result ≡ glance self.now card before tile };

    /// What it says is stored lies in the store that it names.
    ghost held: { (i : Self) (k : Fields) → IsHeld k (view i k) };

    /// A glance tells what it says.
    ghost glances: { (i : Self) (k : Fields) → IsGlance k (glance i k (end i k)) ((view i k).says) };
}
