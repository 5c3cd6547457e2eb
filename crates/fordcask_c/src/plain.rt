// Questions on numbers alone.
ghost use Rattle.std.specs.Prelude.{◌≡◌};
ghost use Rattle.arc.specs.Spacing.{spacing_of};
ghost use Rattle.zones.specs.Basic.{basic_zone_of};
ghost use Rattle.zones.specs.Cover.{cover_of};
ghost use Rattle.rectangle.specs.Rectangle.{rectangle_of};
ghost use Rattle.origin.specs.Origin.{align_of};
ghost use Rattle.card.specs.Offset.{offset_of};
ghost use Rattle.fordcask.specs.Plain.{spacing_block, zone_block, cover_block, rectangle_block, origin_block, offset_block};

use arc::Series;
use fordcask::{CoverParts, OffsetParts, OriginParts, RectangleParts, SpacingParts, ZoneParts};

/// A and B. Refuses 1, 17, 1, 2.
#[unsafe(no_mangle)]
pub extern "C" fn fordcask_spacing(series: Series) -> SpacingParts
    ensures { result ≡ spacing_block (spacing_of series) }
{
    fordcask::fordcask_spacing(series)
}

/// The basic zone of a latitude. Refuses 4.
#[unsafe(no_mangle)]
pub extern "C" fn fordcask_basic_zone(lat: i64) -> ZoneParts
    ensures { result ≡ zone_block (basic_zone_of lat) }
{
    fordcask::fordcask_basic_zone(lat)
}

/// The zones that cover a latitude, the basic zone first, then equatorward. Refuses 1, 17, 1, 4.
#[unsafe(no_mangle)]
pub extern "C" fn fordcask_cover(scale: u64, factor: u64, lat: i64) -> CoverParts
    ensures { result ≡ cover_block (cover_of scale factor lat) }
{
    fordcask::fordcask_cover(scale, factor, lat)
}

/// The zones of a rectangle, in ascending number. Refuses 1, 17, 1, south 4, north 4, 16.
#[unsafe(no_mangle)]
pub extern "C" fn fordcask_rectangle(
    scale: u64,
    factor: u64,
    south: i64,
    north: i64,
) -> RectangleParts
    ensures { result ≡ rectangle_block (rectangle_of scale factor south north) }
{
    fordcask::fordcask_rectangle(scale, factor, south, north)
}

/// The origin of an upper left point. Refuses 1, 24, 17, 1, 2, 3, 4, 5.
#[unsafe(no_mangle)]
pub extern "C" fn fordcask_align(series: Series, lat: i64, lon: i64) -> OriginParts
    ensures { result ≡ origin_block (align_of series lat lon) }
{
    fordcask::fordcask_align(series, lat, lon)
}

/// Position minus centre. Refuses 4, 5 of the position, then 4, 5 of the centre.
#[unsafe(no_mangle)]
pub extern "C" fn fordcask_offset(lat: i64, lon: i64, clat: i64, clon: i64) -> OffsetParts
    ensures { result ≡ offset_block (offset_of lat lon clat clon) }
{
    fordcask::fordcask_offset(lat, lon, clat, clon)
}
