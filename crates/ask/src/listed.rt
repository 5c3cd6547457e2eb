//! Questions on lists of pixels or positions of one card.
use crate::fault::Fault;
use crate::shown::{Blanks, List};
use crate::stated::{Card, MOST};
use crate::words::Words;
use arc::Series;
use fordcask::VerdictParts;

// Tried: a function of `fordcask` handed in by its name, without a closure around it; the check finds no file for its contract there.
/// Asks a card by a list, and prints the two lists that are lent.
fn lists<F: FnOnce(Series, &[u8], &[i64], &mut [i64], &mut [u32]) -> VerdictParts>(
    rt: &HostRuntime,
    words: &mut Words<'_>,
    question: F,
) -> Result<(), Fault>
    requires { F.IsAlwaysCallable question }
{
    let mut bytes = [0; MOST];
    let mut given = [0; MOST];
    let mut values = [7; MOST];
    let mut numbers = [7; MOST];
    let Card { series, bytes } = words.card(&mut bytes)?;
    let given = words.list(&mut given)?;
    let values = words.lent(&mut values)?;
    let numbers = words.lent(&mut numbers)?;
    words.end()?;
    let r = question(series, bytes, given, values, numbers);
    print!(rt; "{} {} {} {}", r.number, r.at, List(values), List(numbers))?;
    println!(rt; "{}", Blanks(r.blanks))?;
    Ok(())
}

/// `positions SCALE FACTOR ZONE CARD [ROW,COLUMN,..] LENGTH NUMBERS`: the positions of the pixels' centres.
pub fn positions(rt: &HostRuntime, words: &mut Words<'_>) -> Result<(), Fault> {
    lists(rt, words, |series, card, pixels, values, numbers| {
        fordcask::fordcask_positions(series, card, pixels, values, numbers)
    })
}

/// `corner_positions SCALE FACTOR ZONE CARD [ROW,COLUMN,..] LENGTH NUMBERS`: the positions of the pixels' corners.
pub fn corner_positions(rt: &HostRuntime, words: &mut Words<'_>) -> Result<(), Fault> {
    lists(rt, words, |series, card, pixels, values, numbers| {
        fordcask::fordcask_corner_positions(series, card, pixels, values, numbers)
    })
}

/// `pixels SCALE FACTOR ZONE CARD [LAT,LON,..] LENGTH NUMBERS`: the pixels that contain the positions.
pub fn pixels(rt: &HostRuntime, words: &mut Words<'_>) -> Result<(), Fault> {
    lists(rt, words, |series, card, positions, values, numbers| {
        fordcask::fordcask_pixels(series, card, positions, values, numbers)
    })
}

/// `corner_pixels SCALE FACTOR ZONE CARD [LAT,LON,..] LENGTH NUMBERS`: the pixels whose corners are nearest.
pub fn corner_pixels(rt: &HostRuntime, words: &mut Words<'_>) -> Result<(), Fault> {
    lists(rt, words, |series, card, positions, values, numbers| {
        fordcask::fordcask_corner_pixels(series, card, positions, values, numbers)
    })
}
