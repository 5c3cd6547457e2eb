//! Text in bytes: digits read, and text put at an offset of a lent buffer.
//! A function that puts answers where the text ends; where it does not fit, nothing is put and the answer is the offset.
#![tactic(auto)]

ghost use Rattle.std.specs.Prelude.{◌≡◌, ◌+◌, ◌/◌, ◌≤◌, [], ◌∷◌, pos, if◌then◌else◌, int_lt, nat_le};
ghost use Rattle.text.specs.Text.{digits, decimal, angle_text};
ghost use Rattle.text.specs.Buffer.{put_at, end_of, digits_in};

/// Bytes that are no run of up to 17 digits.
#[derive(Clone, Copy, Debug, PartialEq, Eq)]
pub struct NotDigits {
    /// What they come to when each is read as one, b − 48 and, below 0, 256 more; 0 of more than 17 bytes.
    pub sum: u64,
}

/// The number of a run of up to 17 digits, 0 for an empty run. Refuses a longer run, and one with a byte that is no digit.
// One test at the end, and none at each byte, and laid in where it is called: that is faster.
#[inline(always)]
#[tactic(auto, using(crate::proofs::Numbers::reading))]
pub fn digits_of(s: &[u8]) -> Result<u64, NotDigits>
    ensures { result ≡ digits_in s.now }
{
    if 17 < s.len() {
        return Err(NotDigits { sum: 0 });
    }
    let mut sum = 0;
    let mut digits = true;
    for b in s {
        sum = sum * 10 + u64::from(b.wrapping_sub(b'0'));
        digits &= b.is_ascii_digit();
    }
    if !digits {
        return Err(NotDigits { sum });
    }
    Ok(sum)
}

/// Whether w bytes fit at an offset of n bytes.
fn has_room(n: usize, o: usize, w: usize) -> bool
    ensures { result ≡ nat_le (o + w) n }
{
    w <= n && o <= n - w
}

/// Puts the bytes of a text.
#[tactic(auto, using(crate::proofs::Splices::putting))]
pub fn put_bytes(out: &mut [u8], o: usize, x: &[u8]) -> usize
    ensures answer { result ≡ end_of x.now o out.old }
    ensures left { out.new ≡ put_at x.now o out.old }
{
    if !has_room(out.len(), o, x.len()) {
        return o;
    }
    out[o..o + x.len()].copy_from_slice(x);
    o + x.len()
}

/// Puts one byte.
#[tactic(auto, using(crate::proofs::Splices::putting))]
pub fn put_byte(out: &mut [u8], o: usize, b: u8) -> usize
    ensures answer { result ≡ end_of (b ∷ []) o out.old }
    ensures left { out.new ≡ put_at (b ∷ []) o out.old }
{
    if out.len() <= o {
        return o;
    }
    out[o] = b;
    o + 1
}

/// v / 10, divided in 32 bits where v has no more: that is faster.
fn tenth(v: u64) -> u64
    ensures quotient { result ≡ v / 10 }
    ensures most { result ≤ 1844674407370955161 }
{
    match u32::try_from(v) {
        Ok(short) => u64::from(short / 10),
        Err(_) => v / 10,
    }
}

/// Puts the last w digits of v, with zeros before them where v has fewer.
#[tactic(auto, using(crate::proofs::Splices::writing))]
pub fn put_number(out: &mut [u8], o: usize, w: usize, v: u64) -> usize
    ensures answer { result ≡ end_of (digits w v) o out.old }
    ensures left { out.new ≡ put_at (digits w v) o out.old }
{
    if !has_room(out.len(), o, w) {
        return o;
    }
    let mut rest = v;
    for place in (0..w).rev() {
        let t = tenth(rest);
        out[o + place] = b'0' + (rest - 10 * t) as u8;
        rest = t;
    }
    o + w
}

/// How many digits v has, leading zeros left out.
#[tactic(auto, using(crate::proofs::Numbers::widths))]
fn width(v: u64) -> usize
    ensures { decimal v ≡ digits result v }
{
    match v.checked_ilog10() {
        Some(power) => power as usize + 1,
        None => 1,
    }
}

/// Puts v with no leading zeros.
pub fn put_decimal(out: &mut [u8], o: usize, v: u64) -> usize
    ensures answer { result ≡ end_of (decimal v) o out.old }
    ensures left { out.new ≡ put_at (decimal v) o out.old }
{
    put_number(out, o, width(v), v)
}

/// + or −; zero carries a plus.
fn sign(z: i64) -> u8
    ensures { result ≡ (if int_lt z (pos 0) then 45 else 43) }
{
    if z < 0 { b'-' } else { b'+' }
}

/// Puts an angle, in hundredths of an arc-second, with d digits of degrees: ±DDDMMSS.SS or ±DDMMSS.SS (MIL-A-89007, 3.17.1).
#[tactic(auto, using(crate::proofs::Angles::angles))]
pub fn put_angle(out: &mut [u8], o: usize, d: usize, z: i64) -> usize
    ensures answer { result ≡ end_of (angle_text d z) o out.old }
    ensures left { out.new ≡ put_at (angle_text d z) o out.old }
{
    if out.len() < d || !has_room(out.len(), o, d + 8) {
        return o;
    }
    let size = z.unsigned_abs();
    let o1 = put_byte(out, o, sign(z));
    let o2 = put_number(out, o1, d, size / 360_000);
    let o3 = put_number(out, o2, 2, size / 6_000 % 60);
    let o4 = put_number(out, o3, 2, size / 100 % 60);
    let o5 = put_byte(out, o4, b'.');
    put_number(out, o5, 2, size % 100)
}
