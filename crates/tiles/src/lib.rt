//! The tile index of an image: its check; where a pixel's tile is stored, its bytes and band values, and the first missing tile of a window, by a list or by
//! presence bits, with or without corrections beside it.
#![tactic(auto)]

ghost use Rattle.std.specs.Prelude.{◌≡◌, ◌≤◌, get_or};
ghost use Rattle.card_text.specs.Read.{Known};
ghost use Rattle.tiles.specs.declared.Source.{Source};
ghost use Rattle.tiles.specs.Index.{tiles, count_wrong, said};

use card::Card;

mod bits;
mod check;
mod corrected;
mod index;
pub mod laws;
mod list;
mod pixel;
mod scan;

pub use bits::ByBits;
pub use check::index_check;
pub use corrected::{Corrected, set_correction};
pub use index::TileIndex;
pub use list::ByList;
pub use pixel::{band_values, look_up, tile};
pub use scan::first_missing;

/// Which of the two stores holds a tile.
#[derive(Clone, Copy, Debug, PartialEq, Eq, Hash)]
pub enum Source {
    Base,
    Corrections,
}

/// A stored tile: the store that holds it, and its number there, from 1.
#[derive(Clone, Copy, Debug, PartialEq, Eq, Hash)]
pub struct Stored {
    pub source: Source,
    pub number: u64,
}

/// What an index says of a tile: where it is stored, that it is not stored, or that its entry is above the count.
#[derive(Clone, Copy)]
pub enum Said {
    Stored(Stored),
    Missing,
    Above,
}

/// The two stores, 49,152 bytes a tile: the base's, and the corrections', which is not looked at where no corrections are asked.
#[derive(Clone, Copy)]
pub struct Stores<'a> {
    pub base: &'a [u8],
    pub corrections: &'a [u8],
}

/// The band values of a pixel.
#[derive(Clone, Copy, Debug, PartialEq, Eq, Hash)]
pub struct Bands {
    pub red: u8,
    pub green: u8,
    pub blue: u8,
}

/// A window of tiles: its upper left tile's row and column in the image, from 0, and how many tiles it has down and across.
#[derive(Clone, Copy, Debug, PartialEq, Eq, Hash)]
pub struct Window {
    pub top: u64,
    pub left: u64,
    pub height: u64,
    pub width: u64,
}

/// How many tiles an image has, NFL × NFC.
#[tactic(auto, using(crate::proofs::Entry::tiles_small))]
pub fn tiles_of(card: Card) -> u64
    ensures is { result ≡ tiles card }
    ensures known { Known card }
    ensures few { result ≤ 998001 }
{
    let fields = card.fields();
    fields.nfl * fields.nfc
}

// Whether the count of stored tiles is not one that the image may have.
fn count_wrong(card: Card, count: u64) -> bool
    ensures { result ≡ count_wrong card count }
{
    if card.fields().tif {
        tiles_of(card) < count
    } else {
        count != tiles_of(card)
    }
}

// What a number says, of a store of so many tiles; 0 for a tile not stored. That it is stored is asked first: a window is faster so.
fn number_says(source: Source, count: u64, number: u64) -> Said
    ensures { result ≡ said source count number }
{
    if number != 0 && number <= count {
        return Said::Stored(Stored { source, number });
    }
    if number == 0 {
        return Said::Missing;
    }
    Said::Above
}

// A tile's entry, 0 past the end of the list.
fn entry_at(entries: &[u32], tile: u32) -> u64
    ensures { result ≡ get_or entries.now tile 0 }
{
    match entries.get(tile as usize) {
        Some(&entry) => u64::from(entry),
        None => 0,
    }
}
