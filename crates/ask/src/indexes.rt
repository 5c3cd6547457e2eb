//! Questions on a card's tile index as a whole: its check, its two forms, setting a correction.
use crate::fault::Fault;
use crate::shown::{Blanks, Bytes, List};
use crate::stated::{Card, MOST, MOST_WORDS};
use crate::words::Words;

/// The check of an index, and the marks that are lent.
pub fn index_check(rt: &HostRuntime, words: &mut Words<'_>) -> Result<(), Fault> {
    let mut bytes = [0; MOST];
    let mut index = [0; MOST];
    let mut marks = [b'*'; MOST];
    let Card { series, bytes } = words.card(&mut bytes)?;
    let index = words.list(&mut index)?;
    let count = words.number()?;
    let marks = words.lent(&mut marks)?;
    words.end()?;
    let r = fordcask::fordcask_index_check(series, bytes, index, count, marks);
    println!(rt;
        "{} {} {}{}",
        r.number,
        r.at,
        Bytes(marks),
        Blanks(r.blanks)
    )?;
    Ok(())
}

/// A list to presence bits, and the words that are lent.
pub fn to_bits(rt: &HostRuntime, words: &mut Words<'_>) -> Result<(), Fault> {
    let mut bytes = [0; MOST];
    let mut index = [0; MOST];
    let mut bits = [7; MOST_WORDS];
    let Card { series, bytes } = words.card(&mut bytes)?;
    let index = words.list(&mut index)?;
    let bits = words.lent(&mut bits)?;
    words.end()?;
    let r = fordcask::fordcask_to_bits(series, bytes, index, bits);
    println!(rt; "{} {} {}{}", r.number, r.at, List(bits), Blanks(r.blanks))?;
    Ok(())
}

/// Presence bits to a list, and the entries that are lent.
pub fn to_list(rt: &HostRuntime, words: &mut Words<'_>) -> Result<(), Fault> {
    let mut bytes = [0; MOST];
    let mut bits = [0; MOST_WORDS];
    let mut index = [7; MOST];
    let Card { series, bytes } = words.card(&mut bytes)?;
    let bits = words.list(&mut bits)?;
    let index = words.lent(&mut index)?;
    words.end()?;
    let r = fordcask::fordcask_to_list(series, bytes, bits, index);
    println!(rt; "{} {} {}{}", r.number, r.at, List(index), Blanks(r.blanks))?;
    Ok(())
}

/// One correction set, and what the list of corrections then holds.
pub fn set_correction(rt: &HostRuntime, words: &mut Words<'_>) -> Result<(), Fault> {
    let mut bytes = [0; MOST];
    let mut corrections = [0; MOST];
    let Card { series, bytes } = words.card(&mut bytes)?;
    let corrections = words.list(&mut corrections)?;
    let corrected = words.number()?;
    let tile = words.number()?;
    let number = words.number()?;
    words.end()?;
    let r = fordcask::fordcask_set_correction(series, bytes, corrections, corrected, tile, number);
    println!(rt;
        "{} {} {}{}",
        r.number,
        r.at,
        List(corrections),
        Blanks(r.blanks)
    )?;
    Ok(())
}
