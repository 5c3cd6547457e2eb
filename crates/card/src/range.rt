// Positions in range, counted in naturals.
ghost use Rattle.std.specs.Prelude.{◌≡◌};
ghost use Rattle.card.specs.Steps.{ranged_of};

use arc::{Circle, Refusal};

/// A position counted from the South Pole and from 180° west, in hundredths of an arc-second.
#[derive(Clone, Copy, Debug, PartialEq, Eq)]
pub struct Ranged {
    pub north: u64,
    pub east: u64,
}

/// A position, counted. Refuses the latitude, then the longitude.
pub fn count_position(lat: i64, lon: i64) -> Result<Ranged, Refusal>
    ensures { result ≡ ranged_of lat lon }
{
    let north = whole::count_from(lat, Circle::LATITUDE).ok_or(Refusal::Latitude)?;
    let east = whole::count_from(lon, Circle::LONGITUDE).ok_or(Refusal::Longitude)?;
    Ok(Ranged { north, east })
}
