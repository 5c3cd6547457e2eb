// Corrections beside the base charts.
ghost use Rattle.std.specs.Prelude.{◌≡◌};
ghost use Rattle.card_text.specs.Read.{Known};
ghost use Rattle.tiles.specs.Corrections.{list_wrong, corrections_wrong, said_with, corrected_by, setting_of, set_of};
ghost use Rattle.tiles.specs.Laws.{corrected-held, corrected-glance};

use crate::{Said, Source, Stored, Stores, TileIndex, entry_at, number_says, tiles_of};
use arc::{Refusal, Tile};
use card::Card;

/// An index with corrections beside it: for each tile of the image, with TIF N too, its number in the corrections store, 0 where the base answers, and how many
/// tiles the corrections store has. Where a correction stands, the base is not asked.
#[derive(Clone, Copy)]
pub struct Corrected<'a, I> {
    pub base: I,
    pub entries: &'a [u32],
    pub count: u64,
}

// Whether the corrections or their count is of the wrong length.
#[tactic(auto, unfolding(crate::specs::Corrections::list_wrong))]
fn list_wrong(card: Card, corrections: &[u32], corrected: u64) -> bool
    ensures is { result ≡ list_wrong card corrections.now corrected }
    ensures known { Known card }
{
    let tiles = tiles_of(card);
    corrections.len() as u64 != tiles || tiles < corrected
}

// Whether the corrections, their count or their store is of the wrong length.
#[tactic(auto, using(crate::proofs::Sources::corrected_most), unfolding(crate::specs::Corrections::corrections_wrong))]
fn corrections_wrong(card: Card, corrections: &[u32], corrected: u64, second: &[u8]) -> bool
    ensures { result ≡ corrections_wrong card corrections.now corrected second.now }
{
    list_wrong(card, corrections, corrected) || second.len() as u64 != corrected * Tile::BYTES
}

impl<I: TileIndex> TileIndex for Corrected<'_, I> {
    ghost view = { λ i k. corrected_by k (I.view i.base k) i.entries.now i.count };

    ghost end = { λ i k. I.end i.base k };

    ghost glance = { λ i k before. said_with i.entries.now i.count (I.glance i.base k before) };

    ghost held = { λ i k. corrected-held k (I.view i.base k) i.entries.now i.count (I.held i.base k) };

    ghost glances = { λ i k. corrected-glance k (I.glance i.base k (I.end i.base k)) ((I.view i.base k).says) i.entries.now i.count (I.glances i.base k) };

    // `Length` of its own or of the base is one refusal, so that `StrayBit` comes after both.
    fn check(&self, card: Card) -> Result<(), Refusal> {
        if list_wrong(card, self.entries, self.count) {
            return Err(Refusal::Length);
        }
        self.base.check(card)
    }

    fn check_with(&self, card: Card, stores: Stores<'_>) -> Result<(), Refusal> {
        if corrections_wrong(card, self.entries, self.count, stores.corrections) {
            return Err(Refusal::Length);
        }
        self.base.check_with(card, stores)
    }

    #[tactic(auto, unfolding(crate::specs::Corrections::said_with))]
    fn says(&self, card: Card, tile: u32) -> Said {
        match entry_at(self.entries, tile) {
            0 => self.base.says(card, tile),
            correction => number_says(Source::Corrections, self.count, correction),
        }
    }

    fn end(&self, card: Card) -> u64 {
        self.base.end(card)
    }

    #[tactic(auto, unfolding(crate::specs::Corrections::said_with))]
    fn glance(&self, card: Card, before: u64, tile: u32) -> Said {
        // the count is tested first, and 0 after it: the other way round a window takes longer
        let number = entry_at(self.entries, tile);
        if self.count < number {
            return Said::Above;
        }
        if number == 0 {
            return self.base.glance(card, before, tile);
        }
        Said::Stored(Stored {
            source: Source::Corrections,
            number,
        })
    }
}

/// Sets a tile's entry in the corrections, 0 to take one back; no other is touched. Refuses `Length`, `OutsideTiles`, then `Entry` of a
/// number above the count; in a refusal the list stays.
#[tactic(auto, unfolding(crate::specs::Corrections::setting_of, crate::specs::Corrections::set_of))]
pub fn set_correction(
    card: Card,
    corrections: &mut [u32],
    corrected: u64,
    tile: u64,
    number: u64,
) -> Result<(), Refusal>
    ensures answer { result ≡ setting_of card corrections.old corrected tile number }
    ensures left { corrections.new ≡ set_of card corrections.old corrected tile number }
{
    if list_wrong(card, corrections, corrected) {
        return Err(Refusal::Length);
    }
    if tiles_of(card) <= tile {
        return Err(Refusal::OutsideTiles);
    }
    if corrected < number {
        return Err(Refusal::Entry { at: tile });
    }
    corrections[tile as usize] = number as u32;
    Ok(())
}
