//! Converting the tile index of an image between a list and presence bits.
#![tactic(auto)]

ghost use Rattle.std.specs.Prelude.{◌≡◌, cond, ◌*◌, ◌≤◌, eqb, length, get_or};
ghost use Rattle.presence.specs.Presence.{numbers_to};
ghost use Rattle.card_text.specs.Read.{Known};
ghost use Rattle.convert.specs.Convert.{lengths_wrong, in_order, bit_of, word_from, bits_of, to_bits_of, bits_left, to_list_of, list_left};

use arc::Refusal;
use card::Card;

pub mod laws;

// Whether the list or the words are of the wrong length.
#[tactic(auto, unfolding(crate::specs::Convert::lengths_wrong))]
fn lengths_wrong(card: Card, index: usize, words: usize) -> bool
    ensures is { result ≡ lengths_wrong card index words }
    ensures known { Known card }
{
    let tiles = tiles::tiles_of(card);
    if card.fields().tif {
        index as u64 != tiles || words as u64 != (tiles + 63) / 64
    } else {
        index != 0 || words != 0
    }
}

// 1 where a tile's entry is not 0, else 0; 0 past the list.
fn bit_at(index: &[u32], tile: usize) -> u64
    ensures { result ≡ bit_of (get_or index.now tile 0) }
{
    match index.get(tile) {
        Some(&entry) => u64::from(entry != 0),
        None => 0,
    }
}

// Whether the non-zero entries are 1, 2, 3 and so on in reading order.
fn in_order(index: &[u32]) -> bool
    ensures { result ≡ in_order 0 index.now }
{
    let mut named: u64 = 0;
    for &entry in index {
        // counted without a branch, which would be foreseen badly where tiles are missing at random
        named += u64::from(entry != 0);
        if entry != 0 && u64::from(entry) != named {
            return false;
        }
    }
    true
}

// A word of bits, its last tile taken first.
fn word_at(index: &[u32], word: usize) -> u64
    requires { word ≤ 15594 }
    ensures { result ≡ word_from index.now (word * 64) 64 }
{
    let mut bits: u64 = 0;
    for place in (0..64).rev() {
        bits = bits * 2 + bit_at(index, word * 64 + place);
    }
    bits
}

// Writes the words.
fn set_words(index: &[u32], words: &mut [u64])
    requires { length words.old ≤ 15594 }
    ensures { words.new ≡ bits_of index.now (length words.old) }
{
    for (i, word) in words.iter_mut().enumerate() {
        *word = word_at(index, i);
    }
}

// An entry: the number, or 0 where the bit is not set.
fn entry(bit: u64, number: u32) -> u32
    ensures { result ≡ cond (eqb bit 0) 0 number }
{
    if bit == 0 { 0 } else { number }
}

// Writes the list.
fn set_list(words: &[u64], index: &mut [u32])
    requires { length index.old ≤ 998001 }
    ensures { index.new ≡ numbers_to words.now (length index.old) }
{
    let mut stored: u32 = 0;
    for (tile, place) in index.iter_mut().enumerate() {
        let bit = presence::bit(words, tile as u64);
        stored += bit as u32;
        *place = entry(bit, stored);
    }
}

/// Writes the presence bits of a list in reading order. Refuses `Length`, then `ReadingOrder` where the list is in another order; in a refusal
/// the words stay.
#[tactic(auto, unfolding(crate::specs::Convert::to_bits_of, crate::specs::Convert::bits_left))]
pub fn to_bits(card: Card, index: &[u32], words: &mut [u64]) -> Result<(), Refusal>
    ensures answer { result ≡ to_bits_of card index.now words.old }
    ensures left { words.new ≡ bits_left card index.now words.old }
{
    if lengths_wrong(card, index.len(), words.len()) {
        return Err(Refusal::Length);
    }
    if !in_order(index) {
        return Err(Refusal::ReadingOrder);
    }
    set_words(index, words);
    Ok(())
}

/// Writes the list of presence bits. Refuses `Length`, then `StrayBit` for a bit past the last tile; in a refusal the list stays.
#[tactic(auto, unfolding(crate::specs::Convert::to_list_of, crate::specs::Convert::list_left))]
pub fn to_list(card: Card, words: &[u64], index: &mut [u32]) -> Result<(), Refusal>
    ensures answer { result ≡ to_list_of card words.now index.old }
    ensures left { index.new ≡ list_left card words.now index.old }
{
    if lengths_wrong(card, index.len(), words.len()) {
        return Err(Refusal::Length);
    }
    if presence::any_set(words, tiles::tiles_of(card)) {
        return Err(Refusal::StrayBit);
    }
    set_list(words, index);
    Ok(())
}
