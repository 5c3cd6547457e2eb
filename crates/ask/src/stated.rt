//! What a question states before its own words, and how much is lent.
use arc::Series;

/// The most bytes, numbers or entries that a word holds or a question fills.
pub const MOST: usize = 65_536;

/// The most words of presence bits, as many as serve the largest index.
pub const MOST_WORDS: usize = 16_384;

/// Scale, factor, zone, and a card's bytes.
#[derive(Clone, Copy)]
pub struct Card<'a> {
    pub series: Series,
    pub bytes: &'a [u8],
}

/// Whether a tile index is a list of entries or presence bits.
#[derive(Clone, Copy)]
pub enum Form {
    List,
    Bits,
}

/// A tile index.
#[derive(Clone, Copy)]
pub enum Index<'a> {
    List(&'a [u32]),
    Bits(&'a [u64]),
}

/// A card, its tile index and the count of its stored tiles.
#[derive(Clone, Copy)]
pub struct Stated<'a> {
    pub card: Card<'a>,
    pub index: Index<'a>,
    pub count: u64,
}

/// The corrections beside an index, the count of their stored tiles, and those tiles.
#[derive(Clone, Copy)]
pub struct Corrections<'a> {
    pub entries: &'a [u32],
    pub corrected: u64,
    pub second: &'a [u8],
}
