//! The first missing tile of a window.
use crate::fault::Fault;
use crate::shown::Blanks;
use crate::stated::{Form, Index, MOST, MOST_WORDS};
use crate::words::Words;
use fordcask::WindowOnCard;

/// `window` or `bits_window SCALE FACTOR ZONE CARD INDEX COUNT TOP LEFT HEIGHT WIDTH`.
pub fn window(rt: &HostRuntime, form: Form, words: &mut Words<'_>) -> Result<(), Fault> {
    let mut bytes = [0; MOST];
    let mut list = [0; MOST];
    let mut bits = [0; MOST_WORDS];
    let s = words.stated(form, &mut bytes, &mut list, &mut bits)?;
    let w = words.window()?;
    words.end()?;
    let (series, card) = (s.card.series, s.card.bytes);
    let r = match s.index {
        Index::List(index) => fordcask::fordcask_window(
            series, card, index, s.count, w.top, w.left, w.height, w.width,
        ),
        Index::Bits(bits) => fordcask::fordcask_bits_window(
            series, card, bits, s.count, w.top, w.left, w.height, w.width,
        ),
    };
    print_window(rt, r)
}

/// The same with `CORRECTIONS CORRECTED` before the window.
pub fn corrected_window(rt: &HostRuntime, form: Form, words: &mut Words<'_>) -> Result<(), Fault> {
    let mut bytes = [0; MOST];
    let mut list = [0; MOST];
    let mut bits = [0; MOST_WORDS];
    let mut entries = [0; MOST];
    let s = words.stated(form, &mut bytes, &mut list, &mut bits)?;
    let entries = words.list(&mut entries)?;
    let corrected = words.number()?;
    let w = words.window()?;
    words.end()?;
    let (series, card) = (s.card.series, s.card.bytes);
    let r = match s.index {
        Index::List(index) => fordcask::fordcask_corrected_window(
            series, card, index, s.count, entries, corrected, w.top, w.left, w.height, w.width,
        ),
        Index::Bits(bits) => fordcask::fordcask_corrected_bits_window(
            series, card, bits, s.count, entries, corrected, w.top, w.left, w.height, w.width,
        ),
    };
    print_window(rt, r)
}

fn print_window(rt: &HostRuntime, r: WindowOnCard) -> Result<(), Fault> {
    println!(rt;
        "{} {} {} {}{}",
        r.number,
        r.at,
        r.missing,
        r.tile,
        Blanks(r.blanks)
    )?;
    Ok(())
}
