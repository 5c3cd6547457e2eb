//! What is asked of the crates below `fordcask`, for which it has no function.
use crate::stated;
use crate::stated::{Corrections, Index, Stated};
use arc::Refusal;
use card::{Card, Pixel};
use card_text::Extents;
use tiles::{ByBits, ByList, Corrected, Stored, Stores, TileIndex};

/// B.
pub fn b_constant(scale: u64, factor: u64) -> Result<u64, Refusal> {
    let pixels = arc::b_constant(scale, factor)?;
    Ok(pixels.count())
}

/// The edges and the tiles, or reading's refusal.
pub fn extents(card: stated::Card<'_>) -> Result<Extents, Refusal> {
    let reading = Card::read(card.series, card.bytes)?;
    Ok(reading.card.extents())
}

/// Reading's refusal, or what the pixel is refused with.
pub fn judge_pixel(card: stated::Card<'_>, pixel: Pixel) -> Result<(), Refusal> {
    let reading = Card::read(card.series, card.bytes)?;
    reading.card.judge_pixel(pixel.row, pixel.column)
}

// Where a pixel's tile is stored, by an index of any kind, or reading's refusal.
fn stored_by<I: TileIndex>(
    card: stated::Card<'_>,
    index: &I,
    stores: Stores<'_>,
    pixel: Pixel,
) -> Result<Stored, Refusal> {
    let card = Card::read(card.series, card.bytes)?.card;
    tiles::look_up(card, index, stores, pixel.row, pixel.column)
}

// The part of the stores that is a pixel's tile, by an index of any kind; empty where reading refuses.
fn part_by<'a, I: TileIndex>(
    card: stated::Card<'_>,
    index: &I,
    stores: Stores<'a>,
    pixel: Pixel,
) -> &'a [u8] {
    match Card::read(card.series, card.bytes) {
        Ok(reading) => tiles::tile(reading.card, index, stores, pixel.row, pixel.column),
        Err(_) => &[],
    }
}

// An index with corrections beside it.
fn with<'a, I>(base: I, c: Corrections<'a>) -> Corrected<'a, I> {
    Corrected {
        base,
        entries: c.entries,
        count: c.corrected,
    }
}

/// The number of a pixel's tile among the stored ones.
pub fn number(s: Stated<'_>, store: &[u8], pixel: Pixel) -> Result<Stored, Refusal> {
    let count = s.count;
    let stores = Stores {
        base: store,
        corrections: &[],
    };
    match s.index {
        Index::List(entries) => stored_by(s.card, &ByList { entries, count }, stores, pixel),
        Index::Bits(words) => stored_by(s.card, &ByBits { words, count }, stores, pixel),
    }
}

/// The part of the store that is a pixel's tile; empty where reading refuses.
pub fn part<'a>(s: Stated<'_>, store: &'a [u8], pixel: Pixel) -> &'a [u8] {
    let count = s.count;
    let stores = Stores {
        base: store,
        corrections: &[],
    };
    match s.index {
        Index::List(entries) => part_by(s.card, &ByList { entries, count }, stores, pixel),
        Index::Bits(words) => part_by(s.card, &ByBits { words, count }, stores, pixel),
    }
}

/// Where a pixel's tile is stored, corrected first, and its number there.
pub fn corrected_number(
    s: Stated<'_>,
    store: &[u8],
    c: Corrections<'_>,
    pixel: Pixel,
) -> Result<Stored, Refusal> {
    let count = s.count;
    let stores = Stores {
        base: store,
        corrections: c.second,
    };
    match s.index {
        Index::List(entries) => {
            stored_by(s.card, &with(ByList { entries, count }, c), stores, pixel)
        }
        Index::Bits(words) => stored_by(s.card, &with(ByBits { words, count }, c), stores, pixel),
    }
}

/// The part of either store that is a pixel's tile; empty where reading refuses.
pub fn corrected_part<'a>(
    s: Stated<'_>,
    store: &'a [u8],
    c: Corrections<'a>,
    pixel: Pixel,
) -> &'a [u8] {
    let count = s.count;
    let stores = Stores {
        base: store,
        corrections: c.second,
    };
    match s.index {
        Index::List(entries) => part_by(s.card, &with(ByList { entries, count }, c), stores, pixel),
        Index::Bits(words) => part_by(s.card, &with(ByBits { words, count }, c), stores, pixel),
    }
}
