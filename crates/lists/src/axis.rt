// The axes of a card's pixels in a pair, from which its engine answers by multiplication (DIGEST "The ARC System" 3.4.3, 3.4.4).
ghost use Rattle.std.specs.Prelude.{◌≡◌, ◌+◌, ◌-◌, ◌*◌, ◌/◌, ◌%◌, ◌≤◌, ◌<◌, pos, ◌-ℤ◌};
ghost use Rattle.whole.specs.Whole.{floor_div};
ghost use Rattle.arc.specs.Pixels.{Grid};
ghost use Rattle.arc.specs.Zones.{circle, half, quarter};
ghost use Rattle.lists.specs.Axes.{scale_up, coarse, fine, start_of, axis_of, span_of};
ghost use Rattle.lists.specs.Entries.{west_of, south_of, east_of};

use arc::Circle;

// 90°, 180° and 360°.
const QUARTER: i64 = Circle::QUARTER as i64;

const HALF: i64 = Circle::HALF as i64;

const CIRCLE: i64 = Circle::H as i64;

// H / 256.
pub const STEP: u64 = 506_250;

// 2^36.
const COARSE: u64 = 68_719_476_736;

// A shift by 36 divides by 2^36.
const COARSE_BITS: u32 = 36;

// 90° and 360° in 2^36ths of a hundredth.
const QUARTER_PARTS: i64 = QUARTER * (COARSE as i64);

const CIRCLE_PARTS: i64 = CIRCLE * (COARSE as i64);

// H / 512.
pub const UNIT: u64 = 253_125;

// 2^45.
const FINE: u64 = 35_184_372_088_832;

// An axis: i pixels along it is (from − i × rate) / 2^36 hundredths, or (from + i × rate) / 2^36.
#[derive(Clone, Copy)]
pub struct Axis {
    pub from: u64,
    pub rate: u64,
}

// The chart along an axis: i hundredths past its first is pixel (i × rate + start) / 2^45, up to `most` past it.
// The first is counted from the South Pole, southward from there, or westward from 180° east, eastward from there.
#[derive(Clone, Copy)]
pub struct Span {
    pub first: u64,
    pub most: u64,
    pub rate: u64,
    pub start: u64,
}

// The smallest whole number not below x × one / d.
fn scale_up(one: u64, x: u64, d: u64) -> u64
    requires product { x * one < 18446744073709000000 }
    requires some { 1 ≤ d }
    requires few { d ≤ 506250 }
    ensures { result ≡ scale_up one x d }
{
    (x * one + (d - 1)) / d
}

// What the rounding of an axis starts from: its angles are added, or taken off.
fn start_of(rest: u64, d: u64, off: bool) -> u64
    requires { rest < d }
    ensures { result ≡ start_of rest d off }
{
    if off { d - 1 - rest } else { rest }
}

// The floor of x / 2^36.
fn whole_parts(x: i64) -> i64
    ensures { result ≡ floor_div x coarse }
{
    x >> COARSE_BITS
}

// The westernmost longitude of a chart, counted westward from 180° east.
fn west_of(first: u64) -> i64
    requires { first < 129600000 }
    ensures { result ≡ west_of first }
{
    HALF - (first as i64)
}

impl Axis {
    // The axis of x pixels a circle, whose first pixel's exact place is so far from its end, a pixel being STEP.
    pub fn of(x: u64, from: u64, off: bool) -> Self
        requires on_grid { Grid x }
        requires from_in_range { from ≤ 506250 * x + 253125 }
        ensures { result ≡ axis_of x from off }
    {
        let unit = x / 512;
        let d = 2 * unit;
        let first = from + unit;
        let part = scale_up(COARSE, start_of(first % d, d, off), d);
        Axis {
            from: first / d * COARSE + start_of(part, COARSE, off),
            rate: scale_up(COARSE, STEP, d),
        }
    }

    // The latitude at pixel i, counted southward.
    pub fn latitude(self, i: u64) -> i64
        requires within { i * self.rate ≤ self.from }
        requires from_low { self.from < 4453022161212276736 }
        ensures { result ≡ pos ((self.from - i * self.rate) / coarse) -ℤ pos quarter }
    {
        whole_parts(((self.from - i * self.rate) as i64) - QUARTER_PARTS)
    }

    // The longitude at pixel i, counted eastward.
    pub fn longitude(self, i: u64) -> i64
        requires from_low { self.from < 8933531975680000000 }
        requires more_low { i * self.rate < 9223372036854775808 }
        requires two_circles { (self.from + i * self.rate) / coarse < 2 * circle }
        ensures { result ≡ pos ((self.from + i * self.rate) / coarse % circle) -ℤ pos half }
    {
        let t = whole_parts((self.from as i64) - CIRCLE_PARTS + ((i * self.rate) as i64));
        if t < 0 { t + HALF } else { t - HALF }
    }
}

impl Span {
    // The span of so many pixels from pixel `low` on, a hundredth adding `unit` to what its first one has, a pixel being UNIT.
    pub fn of(unit: u64, first: u64, rest: u64, low: u64, pixels: u64) -> Self
        requires unit_positive { 1 ≤ unit }
        requires unit_in_range { unit ≤ 156400 }
        requires rest_in_range { rest < 253125 }
        requires not_empty { 1 ≤ pixels }
        requires last_in_range { low + pixels ≤ 127872 }
        ensures { result ≡ span_of unit first rest low pixels }
    {
        Span {
            first,
            most: (UNIT * pixels - 1 - rest) / unit,
            rate: scale_up(FINE, unit, UNIT),
            start: scale_up(FINE, rest, UNIT) + low * FINE,
        }
    }

    // The pixel i hundredths past the first.
    pub fn pixel(self, i: u64) -> i64
        requires { i * self.rate + self.start < 9223372036854775808 }
        ensures { result ≡ pos ((i * self.rate + self.start) / fine) }
    {
        ((i * self.rate + self.start) / FINE) as i64
    }

    // A latitude counted southward from the chart's first one, that being counted from the South Pole.
    pub fn southward(self, lat: i64) -> Option<u64>
        requires { self.first ≤ 64800000 }
        ensures { result ≡ south_of self.first lat }
    {
        let top = (self.first as i64) - QUARTER;
        if lat < -QUARTER || top < lat {
            return None;
        }
        Some((top - lat) as u64)
    }

    // A longitude counted eastward from the chart's first one, round the circle.
    pub fn eastward(self, lon: i64) -> Option<u64>
        requires { self.first < 129600000 }
        ensures { result ≡ east_of self.first lon }
    {
        if lon < -HALF || HALF < lon {
            return None;
        }
        let west = west_of(self.first);
        if lon < west {
            return Some((lon - west + CIRCLE) as u64);
        }
        Some((lon - west) as u64)
    }
}
