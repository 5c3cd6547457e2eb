//! Signed numbers at the edge of unsigned arithmetic, and the nearest whole number. Each function answers for every number of its parameters' types.
#![tactic(auto)]

ghost use Rattle.std.specs.Prelude.{◌≡◌, pos, nat_abs, ◌-ℤ◌};
ghost use Rattle.whole.specs.Whole.{near, counted_by};

pub mod laws;

/// |z|, also of the least `i64`.
pub fn size(z: i64) -> u64
    ensures { result ≡ nat_abs z }
{
    z.unsigned_abs()
}

/// a − b, negative where b is the larger.
pub fn difference(a: u32, b: u32) -> i64
    ensures { result ≡ pos a -ℤ pos b }
{
    i64::from(a) - i64::from(b)
}

/// The nearest whole number to x / d, a half going up; 0 where d is 0.
#[tactic(auto, using(crate::proofs::Rounding::rounding))]
pub fn nearest(x: u64, d: u64) -> u64
    ensures { result ≡ near x d }
{
    if d == 0 {
        return 0;
    }
    let rest = x % d;
    if d - rest <= rest { x / d + 1 } else { x / d }
}

/// z counted from −limit, from 0 to 2 × limit; `None` where z is outside −limit to limit. Both ends of the range are in it.
pub fn count_from(z: i64, limit: u32) -> Option<u64>
    ensures { result ≡ counted_by limit z }
{
    let limit = i64::from(limit);
    if !(-limit..=limit).contains(&z) {
        return None;
    }
    Some((z + limit) as u64)
}
