//! Presence bits: one bit a tile, 64 to a word, the first tile lowest. Every public function answers for every list of words.
#![tactic(auto)]

ghost use Rattle.std.specs.Prelude.{◌≡◌, ◌+◌, ◌-◌, ◌/◌, ◌%◌, ◌^◌, ◌<◌, ◌≤◌, length, count_ones, sum_by};
ghost use Rattle.presence.specs.Presence.{present, counted, number_at, any_set_from, within};

/// A tile's bit, 1 where it is stored; 0 past the words.
// A number, not a `bool`: it is what the definition has, and callers add it.
pub fn bit(words: &[u64], tile: u64) -> u64
    ensures { result ≡ present words.now tile }
{
    match words.get((tile / 64) as usize) {
        Some(word) => (word >> (tile % 64)) % 2,
        None => 0,
    }
}

/// The count of ones in whole words.
fn ones_in(words: &[u64]) -> u64
    requires { length words.now ≤ 2 ^ 26 }
    ensures { result ≡ sum_by count_ones words.now }
{
    words.iter().map(|word| u64::from(word.count_ones())).sum()
}

/// The count of ones up to and including a tile's bit: over the whole words before, and over its word under a mask.
#[tactic(auto, using(crate::proofs::Ones::counting))]
fn ones_to(words: &[u64], tile: u64) -> u64
    requires tile_in_range { tile < 2 ^ 32 }
    requires word_within { tile / 64 < length words.now }
    ensures { result ≡ counted words.now (tile + 1) }
{
    let whole = (tile / 64) as usize;
    let mask = u64::MAX >> (63 - tile % 64);
    ones_in(&words[..whole]) + u64::from((words[whole] & mask).count_ones())
}

/// The stored number of a tile, 0 where it is not stored.
#[tactic(auto, using(crate::proofs::Counted::numbering))]
pub fn number(words: &[u64], tile: u32) -> u64
    ensures { result ≡ number_at words.now tile }
{
    let tile = u64::from(tile);
    if bit(words, tile) == 0 {
        return 0;
    }
    ones_to(words, tile)
}

/// Whether a bit is set in a tile's word, from the tile's bit on.
#[tactic(auto, using(crate::proofs::Set::setting))]
pub fn any_set(words: &[u64], tile: u64) -> bool
    ensures { result ≡ any_set_from words.now tile (64 - tile % 64) }
{
    match words.get((tile / 64) as usize) {
        Some(word) => word >> (tile % 64) != 0,
        None => false,
    }
}

/// How far, up to so many tiles, the count of ones is not above `count`: over whole words, and then tile by tile.
#[tactic(auto, using(crate::proofs::Ones::passing))]
pub fn within(words: &[u64], count: u64, tiles: u32) -> u64
    ensures { result ≡ within words.now count tiles }
{
    let tiles = u64::from(tiles);
    let mut passed = 0;
    let mut ones = 0;
    for word in words {
        let more = ones + u64::from(word.count_ones());
        if tiles < passed + 64 || count < more {
            break;
        }
        passed += 64;
        ones = more;
    }
    for tile in passed..tiles {
        ones += bit(words, tile);
        if count < ones {
            return tile;
        }
    }
    tiles
}
