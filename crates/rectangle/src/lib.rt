//! The zones that share a stretch of latitude with a rectangle (DIGEST, "The ARC System", 3.3.3).
#![tactic(auto)]

ghost use Rattle.std.specs.Prelude.{◌≡◌, ◌<◌, ◌≤◌, pos, ◌-ℤ◌};
ghost use Rattle.arc.specs.Zones.{half, quarter};
ghost use Rattle.zones.specs.Steps.{Rows};
ghost use Rattle.rectangle.specs.Stretch.{shares};
ghost use Rattle.zones.specs.Cover.{listed};
ghost use Rattle.rectangle.specs.Rectangle.{rectangle_zones, rectangle_of};
ghost use Rattle.rectangle.specs.Steps.{shares_row, Sides};

use arc::{Circle, Overlap, Pixels, Refusal, Row, TABLE};
use arrayvec::ArrayVec;
use zones::Zones;

pub mod laws;

/// Whether a row shares a stretch with the sizes of latitude from low to high. Low is below high, or both are 0 and nothing is shared.
#[tactic(auto, using(crate::proofs::Sides::past_fits))]
fn row_shares(b: Pixels, row: Row, low: u64, high: u64) -> bool
    requires rows { Rows b }
    requires low_in_range { low ≤ half }
    ensures { result ≡ shares_row b row low high }
{
    row.equatorward < high
        && (low < row.poleward
            || arc::is_polar(row.northern)
            || (low - row.poleward) * b.count() < Overlap::ANGLE)
}

/// Whether a zone shares a stretch with a rectangle whose edges are counted from the South Pole: with its part on the zone's side of the Equator.
fn zone_shares(b: Pixels, zone: u64, south: u64, north: u64) -> bool
    requires { Sides b zone south north }
    ensures { result ≡ shares b (pos south -ℤ pos quarter) (pos north -ℤ pos quarter) zone }
{
    // by reference: the table itself would be laid out anew for each zone
    let table = &TABLE;
    if zone <= 9 {
        let row = table[(zone - 1) as usize];
        row_shares(
            b,
            row,
            south.saturating_sub(Circle::QUARTER),
            north.saturating_sub(Circle::QUARTER),
        )
    } else {
        let row = table[(zone - 10) as usize];
        row_shares(
            b,
            row,
            Circle::QUARTER.saturating_sub(north),
            Circle::QUARTER.saturating_sub(south),
        )
    }
}

/// The list, the edges counted from the South Pole.
fn zones_of(b: Pixels, south: u64, north: u64) -> ArrayVec<u64, 18>
    requires rows { Rows b }
    requires south_below { south < north }
    requires north_in_range { north ≤ half }
    ensures { result ≡ listed (rectangle_zones b (pos south -ℤ pos quarter) (pos north -ℤ pos quarter)) }
{
    let mut zones = ArrayVec::new();
    for zone in 1..19 {
        if zone_shares(b, zone, south, north) {
            zones.push(zone);
        }
    }
    zones
}

/// The zones that share a stretch of latitude with the rectangle from south to north, in ascending number; the edges are in hundredths of an
/// arc-second. A zone that meets the rectangle in no more than one latitude is not listed. Refuses the scale, the factor, their product as
/// a scale, the south edge, the north edge, and edges of which the south one is not below the north one.
pub fn rectangle(scale: u64, factor: u64, south: i64, north: i64) -> Result<Zones<18>, Refusal>
    ensures { result ≡ rectangle_of scale factor south north }
{
    let b = arc::b_constant(scale, factor)?;
    let south = whole::count_from(south, Circle::LATITUDE).ok_or(Refusal::Latitude)?;
    let north = whole::count_from(north, Circle::LATITUDE).ok_or(Refusal::Latitude)?;
    if north <= south {
        return Err(Refusal::CrossedEdges);
    }
    Ok(zones_of(b, south, north).into())
}
