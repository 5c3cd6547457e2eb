ghost use Rattle.std.specs.Prelude.{◌≡◌, refl};
ghost use Rattle.card_text.specs.Read.{Known};
ghost use Rattle.tiles.specs.Index.{index_wrong, store_wrong, said_of, by_list};
ghost use Rattle.tiles.specs.Laws.{list-held};

use crate::{
    Said, Source, Stored, Stores, TileIndex, count_wrong, entry_at, number_says, tiles_of,
};
use arc::{Refusal, Tile};
use card::Card;

/// The index as a list: for each tile of the image its stored number, 0 where it is not stored, and how many are stored. With TIF N it is empty.
#[derive(Clone, Copy)]
pub struct ByList<'a> {
    pub entries: &'a [u32],
    pub count: u64,
}

impl ByList<'_> {
    // Whether the list or the count is of the wrong length.
    #[tactic(auto, unfolding(crate::specs::Index::index_wrong))]
    pub(crate) fn is_wrong(&self, card: Card) -> bool
        ensures is { result ≡ index_wrong card self.now.entries.now self.now.count }
        ensures known { Known card }
    {
        let length = if card.fields().tif { tiles_of(card) } else { 0 };
        self.entries.len() as u64 != length || count_wrong(card, self.count)
    }

    // Whether the list, the count or the store is of the wrong length.
    #[tactic(auto, using(crate::proofs::Entry::count_most))]
    fn is_wrong_with(&self, card: Card, store: &[u8]) -> bool
        ensures { result ≡ store_wrong card self.now.entries.now self.now.count store.now }
    {
        self.is_wrong(card) || store.len() as u64 != self.count * Tile::BYTES
    }
}

impl TileIndex for ByList<'_> {
    ghost view = { λ i k. by_list k i.entries.now i.count };

    ghost end = { λ i k. 0 };

    ghost glance = { λ i k before t. said_of k i.entries.now i.count t };

    ghost held = { λ i k. list-held k i.entries.now i.count };

    ghost glances = { λ i k t h. refl };

    fn check(&self, card: Card) -> Result<(), Refusal> {
        if self.is_wrong(card) {
            return Err(Refusal::Length);
        }
        Ok(())
    }

    fn check_with(&self, card: Card, stores: Stores<'_>) -> Result<(), Refusal> {
        if self.is_wrong_with(card, stores.base) {
            return Err(Refusal::Length);
        }
        Ok(())
    }

    #[tactic(auto, unfolding(crate::specs::Index::said_of))]
    fn says(&self, card: Card, tile: u32) -> Said {
        if !card.fields().tif {
            return Said::Stored(Stored {
                source: Source::Base,
                number: u64::from(tile) + 1,
            });
        }
        number_says(Source::Base, self.count, entry_at(self.entries, tile))
    }

    fn end(&self, _card: Card) -> u64 {
        0
    }

    fn glance(&self, card: Card, _before: u64, tile: u32) -> Said {
        self.says(card, tile)
    }
}
