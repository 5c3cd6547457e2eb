//! Looking up a pixel's tile: its number, its part of the store, the pixel's values.
use crate::fault::Fault;
use crate::library;
use crate::shown::{Blanks, Ends};
use crate::stated::{Form, Index, MOST, MOST_WORDS, Stated};
use crate::words::Words;
use card::Pixel;

/// Reads a question on the tile of a pixel, and hands it to what answers it.
pub fn ask<F: FnOnce(&HostRuntime, Stated<'_>, &[u8], Pixel) -> Result<(), Fault>>(
    rt: &HostRuntime,
    form: Form,
    words: &mut Words<'_>,
    store: &[u8],
    answer: F,
) -> Result<(), Fault>
    requires { F.IsAlwaysCallable answer }
{
    let mut bytes = [0; MOST];
    let mut list = [0; MOST];
    let mut bits = [0; MOST_WORDS];
    let s = words.stated(form, &mut bytes, &mut list, &mut bits)?;
    let (store, _) = words.store(store)?;
    let pixel = words.pixel()?;
    words.end()?;
    answer(rt, s, store, pixel)
}

/// The number of the tile among the stored ones.
pub fn number(rt: &HostRuntime, s: Stated<'_>, store: &[u8], pixel: Pixel) -> Result<(), Fault> {
    match library::number(s, store, pixel) {
        Ok(stored) => println!(rt; "0 0 {}", stored.number)?,
        Err(e) => println!(rt; "{} {} 0", e.number(), e.place())?,
    }
    Ok(())
}

/// Where the tile lies in the store, and the ends of its bytes.
pub fn tile(rt: &HostRuntime, s: Stated<'_>, store: &[u8], pixel: Pixel) -> Result<(), Fault> {
    let Pixel { row, column } = pixel;
    let (series, card) = (s.card.series, s.card.bytes);
    let r = match s.index {
        Index::List(index) => {
            fordcask::fordcask_tile(series, card, index, s.count, store, row, column)
        }
        Index::Bits(bits) => {
            fordcask::fordcask_bits_tile(series, card, bits, s.count, store, row, column)
        }
    };
    print!(rt;
        "{} {} {} {} {}",
        r.number, r.at, r.stored, r.offset, r.length
    )?;
    println!(rt;
        " {}{}",
        Ends(library::part(s, store, pixel)),
        Blanks(r.blanks)
    )?;
    Ok(())
}

/// The pixel's values.
pub fn bands(rt: &HostRuntime, s: Stated<'_>, store: &[u8], pixel: Pixel) -> Result<(), Fault> {
    let Pixel { row, column } = pixel;
    let (series, card) = (s.card.series, s.card.bytes);
    let r = match s.index {
        Index::List(index) => {
            fordcask::fordcask_bands(series, card, index, s.count, store, row, column)
        }
        Index::Bits(bits) => {
            fordcask::fordcask_bits_bands(series, card, bits, s.count, store, row, column)
        }
    };
    print!(rt; "{} {} {} {} {}", r.number, r.at, r.red, r.green, r.blue)?;
    println!(rt; "{}", Blanks(r.blanks))?;
    Ok(())
}
