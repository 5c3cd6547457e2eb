// Offsets from a centre.
ghost use Rattle.std.specs.Prelude.{◌≡◌, ◌≤◌, pos, ◌-ℤ◌};
ghost use Rattle.card.specs.Grid.{into_range};
ghost use Rattle.card.specs.Offset.{difference, offset_of};

use crate::{Offset, range};
use arc::{Circle, Refusal};

/// The longitude difference the short way, both counted from 180° west.
fn short_way(east: u64, centre: u64) -> i64
    requires east_in_range { east ≤ 129600000 }
    requires centre_in_range { centre ≤ 129600000 }
    ensures { result ≡ into_range (pos east -ℤ pos centre) }
{
    whole::difference(
        ((east + 194_400_000 - centre) % Circle::H) as u32,
        Circle::LONGITUDE,
    )
}

/// The offset between two positions counted from the South Pole and from 180° west.
fn offset_at(north: u64, east: u64, cnorth: u64, ceast: u64) -> Offset
    requires north_in_range { north ≤ 64800000 }
    requires east_in_range { east ≤ 129600000 }
    requires centre_north_in_range { cnorth ≤ 64800000 }
    requires centre_east_in_range { ceast ≤ 129600000 }
    ensures { result ≡ difference (pos north) (pos east) (pos cnorth) (pos ceast) }
{
    let rows = whole::difference(north as u32, cnorth as u32);
    let columns = short_way(east, ceast);
    Offset {
        lat: rows as f64,
        lon: columns as f64,
    }
}

/// Position minus centre. Refuses the latitude and the longitude of the position, then of the centre.
pub fn offset_from(lat: i64, lon: i64, clat: i64, clon: i64) -> Result<Offset, Refusal>
    ensures { result ≡ offset_of lat lon clat clon }
{
    let position = range::count_position(lat, lon)?;
    let centre = range::count_position(clat, clon)?;
    Ok(offset_at(position.north, position.east, centre.north, centre.east))
}
