// A line of the input and its two numbers.
ghost use Rattle.std.specs.Prelude.{◌≡◌, ◌+◌, ◌≤◌, ◌==◌, length, MatchOption};
ghost use Rattle.std.specs.List.{position};
ghost use Rattle.printing.specs.Lines.{up_to, after, short_number, numbers_of};
ghost use Rattle.printing.specs.Run.{line_at};
ghost use Rattle.printing.specs.Steps.{IsUncut};

/// The two numbers of a line, of up to nine digits each.
#[derive(Clone, Copy)]
pub struct TwoNumbers {
    pub left: u32,
    pub right: u32,
}

/// Where a byte first stands.
fn first_of(s: &[u8], byte: u8) -> Option<usize>
    ensures { result ≡ position (λ b. b == byte) s.now }
{
    s.iter().position(|&b| b == byte)
}

/// What stands before and after the first of a byte.
fn split_once(s: &[u8], byte: u8) -> Option<(&[u8], &[u8])>
    ensures { MatchOption result (IsUncut byte s.now) (λ p. (p.0.now ≡ up_to byte s.now) × (p.1.now ≡ after byte s.now)) }
{
    let at = first_of(s, byte)?;
    Some((&s[..at], &s[at + 1..]))
}

/// The line that starts at an offset.
pub fn line_at(input: &[u8], at: usize) -> &[u8]
    requires { at ≤ length input.now }
    ensures line { result.now ≡ line_at input.now at }
    ensures within { at + length result.now ≤ length input.now }
{
    let rest = &input[at..];
    match split_once(rest, b'\n') {
        Some((line, _)) => line,
        None => rest,
    }
}

/// A number of 1 to 9 digits.
#[tactic(auto, using(crate::proofs::Pairs::number_reads))]
fn short_number(s: &[u8]) -> Option<u32>
    ensures { result ≡ short_number s.now }
{
    if !(1..=9).contains(&s.len()) {
        return None;
    }
    let number = text::digits_of(s).ok()?;
    Some(number as u32)
}

/// The two numbers of a line.
#[tactic(auto, using(crate::proofs::Pairs::line_reads))]
pub fn numbers_in(line: &[u8]) -> Option<TwoNumbers>
    ensures { result ≡ numbers_of line.now }
{
    let (left, right) = split_once(line, b' ')?;
    let left = short_number(left)?;
    let right = short_number(right)?;
    Some(TwoNumbers { left, right })
}
