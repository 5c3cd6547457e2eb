ghost use Rattle.std.specs.Prelude.{◌≡◌, length};
ghost use Rattle.card_text.specs.Read.{Known};
ghost use Rattle.tiles.specs.Bits.{words_length, words_wrong, bits_wrong, stray_bit, by_bits};
ghost use Rattle.tiles.specs.Steps.{glance_bits, bits_end};
ghost use Rattle.tiles.specs.Laws.{bits-held, bits-glance};

use crate::{Said, Source, Stored, Stores, TileIndex, count_wrong, number_says, tiles_of};
use arc::{Refusal, Tile};
use card::Card;

/// The index as presence bits: one bit a tile, 64 to a word, the first tile lowest, and how many are stored. With TIF N there are no words.
#[derive(Clone, Copy)]
pub struct ByBits<'a> {
    pub words: &'a [u64],
    pub count: u64,
}

impl ByBits<'_> {
    // Whether the words or the count are of the wrong length.
    #[tactic(auto, unfolding(crate::specs::Bits::words_wrong))]
    fn is_wrong(&self, card: Card) -> bool
        ensures is { result ≡ words_wrong card self.now.words.now self.now.count }
        ensures known { Known card }
    {
        let length = if card.fields().tif {
            (tiles_of(card) + 63) / 64
        } else {
            0
        };
        self.words.len() as u64 != length || count_wrong(card, self.count)
    }

    // Whether the words, the count or the store is of the wrong length.
    #[tactic(auto, using(crate::proofs::Forms::words_count))]
    fn is_wrong_with(&self, card: Card, store: &[u8]) -> bool
        ensures { result ≡ bits_wrong card self.now.words.now self.now.count store.now }
    {
        self.is_wrong(card) || store.len() as u64 != self.count * Tile::BYTES
    }

    // Whether a bit is set past the last tile.
    #[tactic(auto, using(crate::proofs::Forms::stray_is))]
    fn has_stray(&self, card: Card) -> bool
        requires words_fit { length self.now.words.now ≡ words_length card }
        ensures { result ≡ stray_bit card self.now.words.now }
    {
        presence::any_set(self.words, tiles_of(card))
    }
}

impl TileIndex for ByBits<'_> {
    ghost view = { λ i k. by_bits k i.words.now i.count };

    ghost end = { λ i k. bits_end k i.words.now i.count };

    ghost glance = { λ i k before t. glance_bits k i.words.now before t };

    ghost held = { λ i k. bits-held k i.words.now i.count };

    ghost glances = { λ i k. bits-glance k i.words.now i.count };

    #[tactic(auto, using(crate::proofs::Forms::words_right))]
    fn check(&self, card: Card) -> Result<(), Refusal> {
        if self.is_wrong(card) {
            return Err(Refusal::Length);
        }
        if self.has_stray(card) {
            return Err(Refusal::StrayBit);
        }
        Ok(())
    }

    fn check_with(&self, card: Card, stores: Stores<'_>) -> Result<(), Refusal> {
        if self.is_wrong_with(card, stores.base) {
            return Err(Refusal::Length);
        }
        self.check(card)
    }

    #[tactic(auto, unfolding(crate::specs::Bits::said_bits))]
    fn says(&self, card: Card, tile: u32) -> Said {
        if !card.fields().tif {
            return Said::Stored(Stored {
                source: Source::Base,
                number: u64::from(tile) + 1,
            });
        }
        number_says(Source::Base, self.count, presence::number(self.words, tile))
    }

    // The stored tiles are those whose bit is set before this one. The last word is passed whole: no bit of it is looked at
    // one by one; with TIF N no bit is asked.
    fn end(&self, card: Card) -> u64 {
        let fields = card.fields();
        if !fields.tif {
            return 0;
        }
        let tiles = (tiles_of(card) + 63) / 64 * 64;
        presence::within(self.words, self.count, tiles as u32)
    }

    #[tactic(auto, unfolding(crate::specs::Steps::glance_bits))]
    fn glance(&self, card: Card, before: u64, tile: u32) -> Said {
        if card.fields().tif {
            if presence::bit(self.words, u64::from(tile)) == 0 {
                return Said::Missing;
            }
            if before <= u64::from(tile) {
                return Said::Above;
            }
        }
        Said::Stored(Stored {
            source: Source::Base,
            number: 0,
        })
    }
}
