//! Which zone holds a latitude, and which cover it (DIGEST, "The ARC System", 3.3.3).
#![tactic(auto)]

ghost use Rattle.std.specs.Prelude.{◌≡◌, false};
ghost use Rattle.whole.specs.Whole.{outside};
ghost use Rattle.arc.specs.Zones.{quarter};
ghost use Rattle.zones.specs.Basic.{holds_size, row_holding, zone_on, basic_zone_of};
ghost use Rattle.zones.specs.Cover.{listed, cover_zones, cover_of};
ghost use Rattle.zones.specs.Steps.{Rows};

use arc::{Circle, Overlap, Pixels, Refusal, Row, TABLE};
use arrayvec::ArrayVec;

pub mod laws;
mod list;

pub use list::Zones;

/// Whether a row holds a size of latitude: a limit belongs to the poleward row, 90° to the last.
fn holds(row: Row, size: u64) -> bool
    ensures { result ≡ holds_size row size }
{
    row.equatorward <= size && (size < row.poleward || row.poleward == Circle::QUARTER)
}

/// The row that holds a size of latitude.
fn row_holding(size: u64) -> Row
    ensures { result ≡ row_holding size }
{
    for row in TABLE {
        if holds(row, size) {
            return row;
        }
    }
    unreachable!()
}

/// The row's zone on the latitude's side of the Equator.
fn zone_on(lat: i64, row: Row) -> u64
    ensures { result ≡ zone_on lat row }
{
    if lat < 0 { row.southern } else { row.northern }
}

/// The basic zone of a latitude, in hundredths of an arc-second: 1 to 9 from the Equator north, 10 to 18 south of it. A limit belongs to the
/// poleward zone, 0 to zone 1. Refuses a latitude that is not −32,400,000 to 32,400,000.
#[tactic(auto, using(crate::proofs::Ranges::ranges))]
pub fn basic_zone(lat: i64) -> Result<u64, Refusal>
    ensures { result ≡ basic_zone_of lat }
{
    let size = whole::size(lat);
    if Circle::QUARTER < size {
        return Err(Refusal::Latitude);
    }
    Ok(zone_on(lat, row_holding(size)))
}

/// The basic zone, then those equatorward of it that reach the latitude.
fn zones_covering(b: Pixels, lat: i64) -> ArrayVec<u64, 6>
    // of B alone: `Pixels` holds A as well, which may be below 20,480
    requires rows { Rows b }
    requires in_range { outside quarter lat ≡ false }
    ensures { result ≡ listed (cover_zones b lat) }
{
    let size = whole::size(lat);
    let basic = row_holding(size);
    // by reference: the table itself would be laid out anew at each turn
    let table = &TABLE;
    let mut zones = ArrayVec::new();
    zones.push(zone_on(lat, basic));
    for place in (0..(basic.northern - 1) as usize).rev() {
        let row = table[place];
        if (size - row.poleward) * b.count() < Overlap::ANGLE {
            zones.push(zone_on(lat, row));
        }
    }
    zones
}

/// The zones that cover a latitude, in hundredths of an arc-second, at a scale and a factor: the basic zone first, then equatorward those whose
/// overlap of 1024 rows poleward reaches it. Refuses the scale, the factor, their product as a scale, then the latitude.
#[tactic(auto, using(crate::proofs::Ranges::ranges))]
pub fn cover(scale: u64, factor: u64, lat: i64) -> Result<Zones<6>, Refusal>
    ensures { result ≡ cover_of scale factor lat }
{
    let b = arc::b_constant(scale, factor)?;
    if Circle::QUARTER < whole::size(lat) {
        return Err(Refusal::Latitude);
    }
    Ok(zones_covering(b, lat).into())
}
