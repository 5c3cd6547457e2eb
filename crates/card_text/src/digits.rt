// Bytes, runs of digits and runs of letters.
ghost use Rattle.std.specs.Prelude.{◌≡◌, ◌+◌, ◌<◌, ◌≤◌, length};
ghost use Rattle.std.specs.Option.{IfSome};
ghost use Rattle.text.specs.Text.{part, is_name_byte, all, name_laid};
ghost use Rattle.card_text.specs.StepsFields.{digits_run, number_as, lead, skip};

use crate::Fill;

/// A capital letter or a digit.
fn is_name_byte(b: u8) -> bool
    ensures { result ≡ is_name_byte b }
{
    b.is_ascii_uppercase() || b.is_ascii_digit()
}

/// The w bytes of s from offset o.
pub fn bytes_at<'a>(s: &'a [u8], o: usize, w: usize) -> &'a [u8]
    requires { o + w ≤ length s.now }
    ensures value { result.now ≡ part o w s.now }
    ensures width { length result.now ≡ w }
{
    &s[o..o + w]
}

/// The run of w digits from offset o.
#[tactic(auto, using(crate::proofs::Runs::runs))]
pub fn digits_at(s: &[u8], o: usize, w: usize) -> Option<u64>
    requires within { o + w ≤ length s.now }
    requires width { w ≤ 8 }
    ensures value { result ≡ digits_run (part o w s.now) }
    ensures small { IfSome result (λ v. v < 100000000) }
{
    text::digits_of(bytes_at(s, o, w)).ok()
}

/// How many blanks a run starts with, its last byte not among them.
#[tactic(auto, using(crate::proofs::Blanks::scan))]
fn leading(s: &[u8]) -> usize
    requires { 0 < length s.now }
    ensures { result ≡ lead s.now }
{
    let last = s.len() - 1;
    for i in 0..last {
        if s[i] != b' ' {
            return i;
        }
    }
    last
}

/// The same of the w bytes from offset o.
#[tactic(auto, using(crate::proofs::Blanks::scan))]
pub fn leading_at(s: &[u8], o: usize, w: usize) -> u64
    requires within { o + w ≤ length s.now }
    requires not_empty { 0 < w }
    requires width { w ≤ 8 }
    ensures value { result ≡ lead (part o w s.now) }
    ensures most { result ≤ 8 }
{
    leading(bytes_at(s, o, w)) as u64
}

/// How many of them are passed over.
fn skipped(fill: Fill, s: &[u8]) -> usize
    requires { 0 < length s.now }
    ensures { result ≡ skip fill s.now }
{
    match fill {
        Fill::Zeros => 0,
        Fill::Blanks => leading(s),
    }
}

/// A number that starts with a blank.
// Laid in with `number_of` at each subfield, with its literal width: that is faster.
#[inline(always)]
#[tactic(auto, using(crate::proofs::Blanks::numbers))]
fn past_blanks(fill: Fill, s: &[u8]) -> Option<u64>
    requires not_empty { 0 < length s.now }
    requires width { length s.now ≤ 8 }
    ensures { result ≡ number_as fill s.now }
{
    text::digits_of(&s[skipped(fill, s)..]).ok()
}

/// A number: digits, and blanks before them where they may stand. Its first byte tells whether there are any.
#[inline(always)]
#[tactic(auto, using(crate::proofs::Blanks::numbers))]
pub fn number_of(fill: Fill, s: &[u8]) -> Option<u64>
    requires not_empty { 0 < length s.now }
    requires width { length s.now ≤ 8 }
    ensures { result ≡ number_as fill s.now }
{
    if s[0] == b' ' {
        return past_blanks(fill, s);
    }
    text::digits_of(s).ok()
}

/// Whether each byte is a capital letter or a digit.
// Each byte is tested, and the answer told at the end: that is faster.
#[tactic(auto, using(crate::proofs::Runs::named))]
fn all_named(s: &[u8]) -> bool
    ensures { result ≡ all is_name_byte s.now }
{
    let mut named = true;
    for b in s {
        named &= is_name_byte(*b);
    }
    named
}

/// Eight letters or digits, a dot, three more.
#[inline(always)]
#[tactic(auto, unfolding(text::specs::Text::name_laid))]
pub fn name_laid(s: &[u8]) -> bool
    requires { length s.now ≡ 12 }
    ensures { result ≡ name_laid s.now }
{
    all_named(bytes_at(s, 0, 8)) && s[8] == b'.' && all_named(bytes_at(s, 9, 3))
}
