// The printing program: lines in, lines out.
#![tactic(auto)]

ghost use Rattle.std.specs.Prelude.{◌≡◌, ◌≤◌, OnOk, length, drop};
ghost use Rattle.std.specs.Io.KnownBytes.{Appends};
ghost use Rattle.printing.specs.Lines.{lines_of};
ghost use Rattle.printing.specs.Printed.{lines_for, printed};
ghost use Rattle.printing.specs.Run.{opening_blanks};
ghost use Rattle.printing.specs.Steps.{opening_for, opening_text, opening_left, line_text, line_left, no_line};

use card::{Card, Reading};
use std::io;
use std::io::Write;

pub mod laws;
mod line;
mod parse;
mod start;

/// The longest input that is taken, in bytes.
const LONGEST: usize = 65536;

/// The room that a text may need, in bytes.
const ROOM: usize = 64;

// A length and an offset, not slices: the text stands in the lent buffer, since nothing is on the heap.
/// What is printed first: its length in the buffer, the offset to go on from, and the card that the lines there ask of.
/// Where no lines follow, there is no card, and the offset is the end of the input.
#[derive(Clone, Copy)]
pub struct OpeningText {
    pub length: usize,
    pub next: usize,
    pub read: Option<Reading>,
}

/// What is printed for a line: its length in the buffer, and the offset to go on from.
#[derive(Clone, Copy)]
pub struct LineText {
    pub length: usize,
    pub next: usize,
}

impl OpeningText {
    /// The total of blanks met in reading the card; 0 where no card was read.
    pub fn blanks(self) -> u64
        ensures { result ≡ opening_blanks self.read }
    {
        match self.read {
            Some(read) => read.blanks,
            None => 0,
        }
    }
}

/// What is printed before any line of row and column: the header, "bad line", "input too long", or "card refused".
/// Nothing, where the buffer is below 64 bytes.
#[tactic(auto, using(crate::proofs::Openings::opens))]
pub fn opening(input: &[u8], out: &mut [u8]) -> OpeningText
    ensures answer { result ≡ opening_text (opening_for input.now out.old) }
    ensures left { out.new ≡ opening_left input.now out.old }
{
    if out.len() < ROOM {
        return start::stop(0, input.len());
    }
    start::opening_of(out, input)
}

/// Nothing is printed for a line.
fn no_line(next: usize) -> LineText
    ensures { result ≡ no_line next }
{
    LineText { length: 0, next }
}

/// The line that starts at an offset: row, column and position, "refused" and the number, or "bad line".
/// Nothing, where no line starts there, or the input is above 64 KiB or the buffer below 64 bytes; with a longer buffer the caller may come again.
#[tactic(auto, using(crate::proofs::Served::line_serves))]
pub fn pixel_line(card: Card, input: &[u8], at: usize, out: &mut [u8]) -> LineText
    ensures answer { result ≡ line_text card input.now at out.old }
    ensures left { out.new ≡ line_left card input.now at out.old }
{
    if input.len() <= at {
        return no_line(at);
    }
    if LONGEST < input.len() {
        return no_line(input.len());
    }
    if out.len() < ROOM {
        return no_line(at);
    }
    let line = parse::line_at(input, at);
    let length = line::put_pixel(out, card, line);
    LineText {
        length,
        next: at + line.len() + 1,
    }
}

/// The lines of row and column, from an offset on.
fn print_lines<W: Write>(card: Card, input: &[u8], start: usize, out: &mut W) -> io::Result<()>
    requires { length input.now ≤ 65536 }
    ensures { OnOk result (Appends (W.contents out.old) (W.contents out.new) (lines_for card (lines_of (drop start input.now)))) }
{
    let mut at = start;
    // not a `for`: each turn goes on by a line, and not by one
    while at < input.len() {
        let mut buffer = [0u8; ROOM];
        let line = pixel_line(card, input, at, &mut buffer);
        out.write_all(&buffer[..line.length])?;
        at = line.next;
    }
    Ok(())
}

/// Prints all that the printing program prints of an input.
pub fn print<W: Write>(input: &[u8], out: &mut W) -> io::Result<()>
    ensures { OnOk result (Appends (W.contents out.old) (W.contents out.new) (printed input.now)) }
{
    let mut buffer = [0u8; ROOM];
    let first = opening(input, &mut buffer);
    out.write_all(&buffer[..first.length])?;
    // by a name of its own: the borrow checker reads no part of a value that holds a card
    let read = first.read;
    match read {
        Some(reading) => print_lines(reading.card, input, first.next, out),
        None => Ok(()),
    }
}
