// What is stated beside a card, and the spacing that it has.
ghost use Rattle.std.specs.Prelude.{◌≡◌};
ghost use Rattle.arc.specs.Spacing.{columns_of, rows_of, spacing_of};
ghost use Rattle.arc.specs.TownScales.{spacing_for_writing};

use crate::units::is_town_scale;
use crate::zone::{
    Meridian, Spaced, Zone1, Zone2, Zone3, Zone4, Zone5, Zone6, Zone7, Zone8, Zone9,
};
use crate::{Pixels, Refusal, Scale};

/// What the caller states beside a card: the scale S of 1:S, the factor of an overview, 1 for a chart, and the zone, 1 to 18. C lays it out so.
#[repr(C)]
#[derive(Clone, Copy, Debug, PartialEq, Eq)]
pub struct Series {
    pub scale: u64,
    pub factor: u64,
    pub zone: u64,
}

/// Pixels round a parallel of the zone, A, and round a meridian, B.
#[derive(Clone, Copy, Debug, PartialEq, Eq)]
pub struct Spacing {
    pub a: Pixels,
    pub b: Pixels,
}

/// A of a zone. Refuses the zone.
#[inline(always)]
fn columns(scale: Scale, zone: u64) -> Result<Pixels, Refusal>
    ensures { result ≡ columns_of scale zone }
{
    match zone {
        1 | 10 => Ok(Zone1::spacing(scale)),
        2 | 11 => Ok(Zone2::spacing(scale)),
        3 | 12 => Ok(Zone3::spacing(scale)),
        4 | 13 => Ok(Zone4::spacing(scale)),
        5 | 14 => Ok(Zone5::spacing(scale)),
        6 | 15 => Ok(Zone6::spacing(scale)),
        7 | 16 => Ok(Zone7::spacing(scale)),
        8 | 17 => Ok(Zone8::spacing(scale)),
        9 | 18 => Ok(Zone9::spacing(scale)),
        _ => Err(Refusal::Zone),
    }
}

/// B at a scale and a factor, the same in every zone. Refuses the scale, the factor, then their product as a scale.
pub fn b_constant(scale: u64, factor: u64) -> Result<Pixels, Refusal>
    ensures { result ≡ rows_of scale factor }
{
    let scale = Scale::of_overview(scale, factor)?;
    Ok(Meridian::spacing(scale))
}

impl Series {
    /// A and B. Refuses the scale, the factor, their product as a scale, then the zone.
    // Laid in where it is called, and so are the two beside it: reading and writing are faster so.
    #[inline(always)]
    pub fn spacing(self) -> Result<Spacing, Refusal>
        ensures { result ≡ spacing_of self }
    {
        let scale = Scale::of_overview(self.scale, self.factor)?;
        let a = columns(scale, self.zone)?;
        Ok(Spacing {
            a,
            b: Meridian::spacing(scale),
        })
    }

    /// The spacing of a card that is to be written, or of a point that is to be aligned. Refuses a town scale right after a number that is
    /// no scale, and the rest as `spacing` does; no town scale is refused as a number that is no scale, so it is judged first.
    #[inline(always)]
    pub fn spacing_for_writing(self) -> Result<Spacing, Refusal>
        ensures { result ≡ spacing_for_writing self }
    {
        if is_town_scale(self.scale) {
            return Err(Refusal::TownScale);
        }
        self.spacing()
    }
}
