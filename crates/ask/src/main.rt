//! Puts the questions of standard input to the library, a line each, and prints the answers (docs/ASKING.md).
//! Taken: 1 MiB of input; bytes and lists, lent or read, of up to 65,536, so that the largest index has 65,536 entries; 16,384 words of presence bits;
//! a store of up to 1 MiB. Nothing is on the heap.
//! Lent bytes are `*`, lent numbers 7. In the store's k-th tile each red byte is k, each green byte its row, each blue byte 128 + its column.
#![tactic(auto)]

ghost use Rattle.std.specs.Prelude.{◌≡◌, length};

use fault::Fault;
use std::io;
use std::io::Write;

mod cards;
mod corrected;
mod fault;
mod indexes;
mod library;
mod listed;
mod look_up;
mod plain;
mod question;
mod shown;
mod stated;
mod windows;
mod words;

/// The longest input that is taken, and the longest store that is lent.
const MEBIBYTE: usize = 1_048_576;

/// A band of a tile: 128 rows of 128.
const BAND: usize = 16_384;

/// A byte of the store.
fn byte_of_store(i: usize) -> u8 {
    match i % (3 * BAND) / BAND {
        0 => ((i / (3 * BAND) + 1) % 256) as u8,
        1 => (i % BAND / 128) as u8,
        _ => (128 + i % 128) as u8,
    }
}

fn fill(store: &mut [u8]) {
    for (i, byte) in store.iter_mut().enumerate() {
        *byte = byte_of_store(i);
    }
}

/// Answers a line without its line feed.
fn answer(rt: &HostRuntime, line: &[u8], store: &[u8]) -> io::Result<()> {
    if line.is_empty() || line.starts_with(b"#") {
        io::writer(rt).write_all(line)?;
        return println!(rt);
    }
    match question::ask(rt, line, store) {
        Ok(()) => Ok(()),
        Err(Fault::BadLine) => println!(rt; "bad line"),
        Err(Fault::Output(e)) => Err(e),
    }
}

/// 1 MiB and a byte, as long as they are: the check would unfold an array of that length where `main` takes a part of it.
fn sized(bytes: [u8; 1_048_577]) -> [u8; 1_048_577]
    ensures { 1048577 ≡ length result }
{
    bytes
}

fn main(rt: HostRuntime) -> io::Result<()> {
    let mut bytes = sized([0; MEBIBYTE + 1]);
    let n = input::fill(&mut rt.stdin(), &mut bytes)?;
    if MEBIBYTE < n {
        return println!(rt; "input too long");
    }
    let mut store = sized([0; MEBIBYTE + 1]);
    fill(&mut store);
    for line in bytes[..n].split_inclusive(|byte| *byte == b'\n') {
        answer(&rt, line.strip_suffix(b"\n").unwrap_or(line), &store)?;
    }
    Ok(())
}
