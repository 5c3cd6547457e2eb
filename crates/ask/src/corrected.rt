//! Looking up a pixel's tile with corrections: its store and number, its part, the pixel's values.
use crate::fault::Fault;
use crate::library;
use crate::shown::{Blanks, Ends};
use crate::stated::{Corrections, Form, Index, MOST, MOST_WORDS, Stated};
use crate::words::Words;
use card::Pixel;
use fordcask::{BandsOnCard, CorrectedTile};
use tiles::Source;

/// What is asked of: an index, its store, the corrections beside it, and a pixel.
#[derive(Clone, Copy)]
pub struct Question<'a> {
    stated: Stated<'a>,
    store: &'a [u8],
    corrections: Corrections<'a>,
    pixel: Pixel,
}

/// Reads a question on the tile of a pixel, and hands it to what answers it. The two stores stand one after the other.
pub fn ask<F: FnOnce(&HostRuntime, Question<'_>) -> Result<(), Fault>>(
    rt: &HostRuntime,
    form: Form,
    words: &mut Words<'_>,
    store: &[u8],
    answer: F,
) -> Result<(), Fault>
    requires { F.IsAlwaysCallable answer }
{
    let mut bytes = [0; MOST];
    let mut list = [0; MOST];
    let mut bits = [0; MOST_WORDS];
    let mut entries = [0; MOST];
    let stated = words.stated(form, &mut bytes, &mut list, &mut bits)?;
    let (store, rest) = words.store(store)?;
    let entries = words.list(&mut entries)?;
    let corrected = words.number()?;
    let (second, _) = words.store(rest)?;
    let pixel = words.pixel()?;
    words.end()?;
    let corrections = Corrections {
        entries,
        corrected,
        second,
    };
    let q = Question {
        stated,
        store,
        corrections,
        pixel,
    };
    answer(rt, q)
}

/// The store that holds the tile, and its number there.
pub fn number(rt: &HostRuntime, q: Question<'_>) -> Result<(), Fault> {
    match library::corrected_number(q.stated, q.store, q.corrections, q.pixel) {
        Ok(stored) => {
            let source = match stored.source {
                Source::Base => 0,
                Source::Corrections => 1,
            };
            println!(rt; "0 0 {source} {}", stored.number)?;
        }
        Err(e) => println!(rt; "{} {} 0 0", e.number(), e.place())?,
    }
    Ok(())
}

/// What the library answers.
fn tile_of(q: Question<'_>) -> CorrectedTile {
    let (s, c) = (q.stated, q.corrections);
    let Pixel { row, column } = q.pixel;
    let (series, card) = (s.card.series, s.card.bytes);
    match s.index {
        Index::List(index) => fordcask::fordcask_corrected_tile(
            series,
            card,
            index,
            s.count,
            q.store,
            c.entries,
            c.corrected,
            c.second,
            row,
            column,
        ),
        Index::Bits(bits) => fordcask::fordcask_corrected_bits_tile(
            series,
            card,
            bits,
            s.count,
            q.store,
            c.entries,
            c.corrected,
            c.second,
            row,
            column,
        ),
    }
}

/// Where the tile lies in either store, and the ends of its bytes.
pub fn tile(rt: &HostRuntime, q: Question<'_>) -> Result<(), Fault> {
    let r = tile_of(q);
    let part = library::corrected_part(q.stated, q.store, q.corrections, q.pixel);
    print!(rt;
        "{} {} {} {} {}",
        r.number, r.at, r.source, r.stored, r.offset
    )?;
    println!(rt; " {} {}{}", r.length, Ends(part), Blanks(r.blanks))?;
    Ok(())
}

/// What the library answers.
fn bands_of(q: Question<'_>) -> BandsOnCard {
    let (s, c) = (q.stated, q.corrections);
    let Pixel { row, column } = q.pixel;
    let (series, card) = (s.card.series, s.card.bytes);
    match s.index {
        Index::List(index) => fordcask::fordcask_corrected_bands(
            series,
            card,
            index,
            s.count,
            q.store,
            c.entries,
            c.corrected,
            c.second,
            row,
            column,
        ),
        Index::Bits(bits) => fordcask::fordcask_corrected_bits_bands(
            series,
            card,
            bits,
            s.count,
            q.store,
            c.entries,
            c.corrected,
            c.second,
            row,
            column,
        ),
    }
}

/// The pixel's values.
pub fn bands(rt: &HostRuntime, q: Question<'_>) -> Result<(), Fault> {
    let r = bands_of(q);
    print!(rt; "{} {} {} {} {}", r.number, r.at, r.red, r.green, r.blue)?;
    println!(rt; "{}", Blanks(r.blanks))?;
    Ok(())
}
