// The subfields, each read once, left to right.
ghost use Rattle.std.specs.Prelude.{◌≡◌, ◌+◌, ◌<◌, ◌≤◌, length, ltb, leb, eqb, not, ◌&&◌};
ghost use Rattle.text.specs.Text.{is_sign};
ghost use Rattle.std.specs.Option.{IfSome};
ghost use Rattle.card_text.specs.StepsFields.{shifted, parts_of, read_number, read_angle, read_name, read_flag};
ghost use Rattle.card_text.specs.StepsFields.{read_stated, read_extents, read_sides, read_all};

use crate::{Extents, Fill, digits};
use arc::{Circle, Refusal};

/// Any number of at most eight digits.
const ANY: u64 = 99_999_999;

/// The four numbers of an angle.
#[derive(Clone, Copy)]
pub struct Angle {
    pub degrees: u64,
    pub minutes: u64,
    pub seconds: u64,
    pub hundredths: u64,
}

/// The spacing and the origin that a card states, each angle counted from the low end of its axis.
#[derive(Clone, Copy)]
pub struct Stated {
    pub arv: u64,
    pub brv: u64,
    pub lso: u64,
    pub pso: u64,
}

/// What the subfields hold.
#[derive(Clone, Copy)]
pub struct Values {
    pub stated: Stated,
    pub extents: Extents,
    pub bad: [u8; 12],
    pub tif: bool,
}

/// Digits, from low to high, and blanks before them where they may stand.
// Laid in at each of its calls, with their literal offsets and widths: that is faster.
#[inline(always)]
fn number_at(fill: Fill, s: &[u8], o: usize, w: usize, low: u64, high: u64) -> Result<u64, Refusal>
    requires within { o + w ≤ length s.now }
    requires not_empty { 0 < w }
    requires width { w ≤ 8 }
    ensures { result ≡ read_number fill o w low high s.now }
{
    let at = o as u64;
    let Some(value) = digits::number_of(fill, digits::bytes_at(s, o, w)) else {
        return Err(Refusal::Kind { at });
    };
    if !(low..=high).contains(&value) {
        return Err(Refusal::Value { at });
    }
    Ok(value)
}

/// + or −.
fn is_sign(b: u8) -> bool
    ensures { result ≡ is_sign b }
{
    matches!(b, b'+' | b'-')
}

/// The numbers of ±DDDMMSS.SS or ±DDMMSS.SS, d being the count of degree digits.
#[tactic(auto, using(crate::proofs::Angles::laid))]
fn angle_in(p: &[u8], d: usize) -> Option<Angle>
    requires long { length p.now ≡ d + 8 }
    requires width { d ≤ 3 }
    ensures value { result ≡ parts_of d p.now }
    ensures degrees { IfSome result (λ a. a.degrees < 100000000) }
    ensures minutes { IfSome result (λ a. a.minutes < 100000000) }
    ensures seconds { IfSome result (λ a. a.seconds < 100000000) }
    ensures hundredths { IfSome result (λ a. a.hundredths < 100000000) }
{
    if !is_sign(p[0]) {
        return None;
    }
    if p[d + 5] != b'.' {
        return None;
    }
    let degrees = digits::digits_at(p, 1, d)?;
    let minutes = digits::digits_at(p, d + 1, 2)?;
    let seconds = digits::digits_at(p, d + 3, 2)?;
    let hundredths = digits::digits_at(p, d + 6, 2)?;
    Some(Angle {
        degrees,
        minutes,
        seconds,
        hundredths,
    })
}

/// An angle counted from its limit below zero, and 0 where it is below that.
fn shifted_by(limit: u64, below: bool, size: u64) -> u64
    requires limit_in_range { limit ≤ 64800000 }
    requires size_in_range { size < 2000000000000000 }
    ensures { result ≡ shifted limit below size }
{
    if below {
        limit.saturating_sub(size)
    } else {
        limit + size
    }
}

/// Minutes and seconds below 60, a size within the limit, and no minus zero.
fn in_range(angle: Angle, size: u64, limit: u64, below: bool) -> bool
    ensures { result ≡ (ltb angle.minutes 60 && ltb angle.seconds 60 && leb size limit && not (below && eqb size 0)) }
{
    angle.minutes < 60 && angle.seconds < 60 && size <= limit && !(below && size == 0)
}

/// ±DDDMMSS.SS or ±DDMMSS.SS, d being the count of degree digits, counted from the limit below zero.
fn angle_at(s: &[u8], o: usize, d: usize, limit: u64) -> Result<u64, Refusal>
    requires within { o + (d + 8) ≤ length s.now }
    requires width { d ≤ 3 }
    requires limit_in_range { limit ≤ 64800000 }
    ensures { result ≡ read_angle o d limit s.now }
{
    let at = o as u64;
    let p = digits::bytes_at(s, o, d + 8);
    let Some(angle) = angle_in(p, d) else {
        return Err(Refusal::Kind { at });
    };
    let whole = angle.degrees * 360_000 + angle.minutes * 6_000;
    let size = whole + angle.seconds * 100 + angle.hundredths;
    let below = p[0] == b'-';
    if !in_range(angle, size, limit, below) {
        return Err(Refusal::Value { at });
    }
    Ok(shifted_by(limit, below, size))
}

/// BAD.
fn name_at(s: &[u8], o: usize) -> Result<[u8; 12], Refusal>
    requires { o + 12 ≤ length s.now }
    ensures { result ≡ read_name o s.now }
{
    let name = digits::bytes_at(s, o, 12);
    if !digits::name_laid(name) {
        return Err(Refusal::Kind { at: o as u64 });
    }
    let mut bad = [0; 12];
    bad.copy_from_slice(name);
    Ok(bad)
}

/// TIF.
fn flag_at(s: &[u8], o: usize) -> Result<bool, Refusal>
    requires { o + 1 ≤ length s.now }
    ensures { result ≡ read_flag o s.now }
{
    match s[o] {
        b'Y' => Ok(true),
        b'N' => Ok(false),
        _ => Err(Refusal::Value { at: o as u64 }),
    }
}

/// STR ARV BRV LSO PSO.
fn stated_in(fill: Fill, s: &[u8]) -> Result<Stated, Refusal>
    requires { length s.now ≡ 98 }
    ensures { result ≡ read_stated fill s.now }
{
    number_at(fill, s, 0, 1, 3, 3)?;
    let arv = number_at(fill, s, 1, 8, 0, ANY)?;
    let brv = number_at(fill, s, 9, 8, 0, ANY)?;
    let lso = angle_at(s, 17, 3, Circle::HALF)?;
    let pso = angle_at(s, 28, 2, Circle::QUARTER)?;
    Ok(Stated { arv, brv, lso, pso })
}

/// NUL NUS NLL NLS NFL NFC.
fn extents_in(fill: Fill, s: &[u8]) -> Result<Extents, Refusal>
    requires { length s.now ≡ 98 }
    ensures { result ≡ read_extents fill s.now }
{
    Ok(Extents {
        nul: number_at(fill, s, 38, 6, 0, ANY)?,
        nus: number_at(fill, s, 44, 6, 0, ANY)?,
        nll: number_at(fill, s, 50, 6, 0, ANY)?,
        nls: number_at(fill, s, 56, 6, 0, ANY)?,
        nfl: number_at(fill, s, 62, 3, 1, 999)?,
        nfc: number_at(fill, s, 65, 3, 1, 999)?,
    })
}

/// PNC PNL COD ROD POR PCB PVB.
fn sides_in(fill: Fill, s: &[u8]) -> Result<(), Refusal>
    requires { length s.now ≡ 98 }
    ensures { result ≡ read_sides fill s.now }
{
    number_at(fill, s, 68, 6, 128, 128)?;
    number_at(fill, s, 74, 6, 128, 128)?;
    number_at(fill, s, 80, 1, 0, 0)?;
    number_at(fill, s, 81, 1, 1, 1)?;
    number_at(fill, s, 82, 1, 0, 0)?;
    number_at(fill, s, 83, 1, 0, 0)?;
    number_at(fill, s, 84, 1, 8, 8)?;
    Ok(())
}

/// Every subfield.
pub fn values_in(fill: Fill, s: &[u8]) -> Result<Values, Refusal>
    requires { length s.now ≡ 98 }
    ensures { result ≡ read_all fill s.now }
{
    let stated = stated_in(fill, s)?;
    let extents = extents_in(fill, s)?;
    sides_in(fill, s)?;
    let bad = name_at(s, 85)?;
    let tif = flag_at(s, 97)?;
    Ok(Values {
        stated,
        extents,
        bad,
        tif,
    })
}
