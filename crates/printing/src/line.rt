// What is printed for a line of row and column.
ghost use Rattle.std.specs.Prelude.{◌≡◌, ◌+◌, ◌≤◌, length};
ghost use Rattle.text.specs.Steps.{Put};
ghost use Rattle.printing.specs.Printed.{position_text, answer_text, pixel_text, line_for};

use crate::parse::{self, TwoNumbers};
use arc::Refusal;
use card::{Card, Pair, Position};

/// Latitude and longitude in card form.
fn put_position(out: &mut [u8], o: usize, position: Position) -> usize
    requires { o + 29 ≤ length out.old }
    ensures { Put (position_text position) o out.old out.new result }
{
    let o1 = text::put_angle(out, o, 2, position.lat);
    let o2 = text::put_byte(out, o1, b' ');
    let o3 = text::put_angle(out, o2, 3, position.lon);
    text::put_byte(out, o3, b'\n')
}

/// Latitude and longitude in card form, or "refused" and the number.
fn put_answer(out: &mut [u8], o: usize, answer: Result<Position, Refusal>) -> usize
    requires { o + 29 ≤ length out.old }
    ensures { Put (answer_text answer) o out.old out.new result }
{
    match answer {
        Ok(position) => put_position(out, o, position),
        Err(refusal) => {
            let o1 = text::put_bytes(out, o, b"refused ");
            let o2 = text::put_decimal(out, o1, u64::from(refusal.number()));
            text::put_byte(out, o2, b'\n')
        }
    }
}

/// Row, column and the answer.
fn put_line(out: &mut [u8], row: u32, column: u32, answer: Result<Position, Refusal>) -> usize
    requires { 64 ≤ length out.old }
    ensures { Put (pixel_text row column answer) 0 out.old out.new result }
{
    let o1 = text::put_decimal(out, 0, u64::from(row));
    let o2 = text::put_byte(out, o1, b' ');
    let o3 = text::put_decimal(out, o2, u64::from(column));
    let o4 = text::put_byte(out, o3, b' ');
    put_answer(out, o4, answer)
}

/// Row, column and the answer of the corner pair, or "bad line".
pub fn put_pixel(out: &mut [u8], card: Card, line: &[u8]) -> usize
    requires { 64 ≤ length out.old }
    ensures { Put (line_for card line.now) 0 out.old out.new result }
{
    let Some(TwoNumbers { left, right }) = parse::numbers_in(line) else {
        return text::put_bytes(out, 0, b"bad line\n");
    };
    let answer = card.position_in(Pair::Corner, i64::from(left), i64::from(right));
    put_line(out, left, right, answer)
}
