// What is printed first.
ghost use Rattle.std.specs.Prelude.{◌≡◌, ◌≤◌, length};
ghost use Rattle.text.specs.Steps.{Put};
ghost use Rattle.printing.specs.Printed.{refusal_text};
ghost use Rattle.printing.specs.Run.{closed, opened_with, opening_of};
ghost use Rattle.printing.specs.Steps.{stopped, Opens};

use crate::parse::{self, TwoNumbers};
use crate::{LONGEST, OpeningText};
use arc::{Refusal, Series};
use card::{Card, Reading};

/// A refused card: the number and the place.
fn put_refusal(out: &mut [u8], refusal: Refusal) -> usize
    requires { 64 ≤ length out.old }
    ensures { Put (refusal_text refusal) 0 out.old out.new result }
{
    let o1 = text::put_bytes(out, 0, b"card refused ");
    let o2 = text::put_decimal(out, o1, u64::from(refusal.number()));
    let o3 = text::put_byte(out, o2, b' ');
    let o4 = text::put_decimal(out, o3, refusal.place());
    text::put_byte(out, o4, b'\n')
}

/// Nothing follows.
pub fn stop(length: usize, end: usize) -> OpeningText
    ensures { result ≡ stopped length end }
{
    OpeningText {
        length,
        next: end,
        read: None,
    }
}

/// A text after which nothing follows.
fn stop_with(out: &mut [u8], text: &[u8], end: usize) -> OpeningText
    requires { length text.now ≤ length out.old }
    ensures { Opens (closed text.now end) out.old out.new result }
{
    let length = text::put_bytes(out, 0, text);
    stop(length, end)
}

/// The header, where the card is accepted, with lines from `next` on; the input ends at `end`.
fn opened(out: &mut [u8], answer: Result<Reading, Refusal>, next: usize, end: usize) -> OpeningText
    requires { 64 ≤ length out.old }
    ensures { Opens (opened_with answer next end) out.old out.new result }
{
    match answer {
        Ok(reading) => {
            let length = text::put_bytes(out, 0, b"row column latitude longitude\n");
            OpeningText {
                length,
                next,
                read: Some(reading),
            }
        }
        Err(refusal) => {
            let length = put_refusal(out, refusal);
            stop(length, end)
        }
    }
}

/// The whole of what is printed first. The first line has scale and zone, the factor being 1, and the second one the card.
pub fn opening_of(out: &mut [u8], input: &[u8]) -> OpeningText
    requires { 64 ≤ length out.old }
    ensures { Opens (opening_of input.now) out.old out.new result }
{
    let end = input.len();
    if LONGEST < end {
        return stop_with(out, b"input too long\n", end);
    }
    let first = parse::line_at(input, 0);
    let from = first.len() + 1;
    if end <= from {
        return stop_with(out, b"bad line\n", end);
    }
    let second = parse::line_at(input, from);
    let Some(TwoNumbers { left, right }) = parse::numbers_in(first) else {
        return stop_with(out, b"bad line\n", end);
    };
    let series = Series {
        scale: u64::from(left),
        factor: 1,
        zone: u64::from(right),
    };
    let answer = Card::read(series, second);
    opened(out, answer, from + second.len() + 1, end)
}
