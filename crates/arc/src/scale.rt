// The scale that a spacing is read from, and the pixels that are read.
use crate::units::is_factor;
use crate::{Refusal, Scales, is_scale};
use std::marker::Model;

/// A scale that is served: 1:5,000 to 1:20,000,000.
#[derive(Clone, Copy, Debug, PartialEq, Eq)]
pub struct Scale {
    denominator: u64,
}

impl Model for Scale {
    ghost use Rattle.std.specs.Prelude.{ℕ};
    ghost use Rattle.arc.specs.Scales.{Served};

    ghost Value = { ℕ };

    ghost view = { λ s. s.denominator };

    ghost invariant = { λ s. Served s.denominator };

    ghost inverse = { λ n. record { denominator = n } };
}

impl Scale {
    ghost use Rattle.std.specs.Prelude.{◌≡◌};
    ghost use Rattle.arc.specs.Scales.{overview_scale};

    /// Scale times factor, the scale that a spacing is read from; the factor is 1 for a chart, up to 64 for an overview.
    /// Refuses the scale, then the factor, then their product where it is above 20,000,000; the two are judged before they are multiplied.
    #[tactic(auto, using(crate::proofs::ScaleLaws::products))]
    pub fn of_overview(scale: u64, factor: u64) -> Result<Self, Refusal>
        ensures { result ≡ overview_scale scale factor }
    {
        if !is_scale(scale) {
            return Err(Refusal::Scale);
        }
        if !is_factor(factor) {
            return Err(Refusal::Factor);
        }
        let product = scale * factor;
        if Scales::MOST < product {
            return Err(Refusal::Scale);
        }
        Ok(Scale {
            denominator: product,
        })
    }
}

/// Pixels round the circle: a multiple of 512, from 512 to 80,076,800 (DIGEST, "The ARC System", 3.4.6).
#[derive(Clone, Copy, Debug, PartialEq, Eq)]
pub struct Pixels {
    count: u64,
}

impl Model for Pixels {
    ghost use Rattle.std.specs.Prelude.{ℕ};
    ghost use Rattle.arc.specs.Pixels.{Grid};

    ghost Value = { ℕ };

    ghost view = { λ p. p.count };

    ghost invariant = { λ p. Grid p.count };

    ghost inverse = { λ n. record { count = n } };
}

impl Pixels {
    ghost use Rattle.std.specs.Prelude.{◌≡◌};
    ghost use Rattle.arc.specs.Pixels.{spacing_at, Grid, SpacingUnit};

    /// How many they are.
    pub fn count(self) -> u64
        ensures value { result ≡ self }
        ensures on_grid { Grid result }
    {
        self.count
    }

    /// 512 times the smallest whole number not below unit × 1,000,000 / scale.
    #[tactic(auto, using(crate::proofs::PixelLaws::makes))]
    pub(crate) fn at(unit: u64, scale: Scale) -> Self
        requires { SpacingUnit unit }
        ensures { result ≡ spacing_at unit scale }
    {
        Pixels {
            count: 512 * (unit * 1_000_000).div_ceil(scale.denominator),
        }
    }
}
