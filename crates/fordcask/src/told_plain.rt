// The blocks of questions on numbers alone.
ghost use Rattle.std.specs.Prelude.{◌≡◌};
ghost use Rattle.fordcask.specs.Plain.{constant_block, spacing_block, zone_block, cover_block, rectangle_block, origin_block, offset_block};

use crate::parts::{
    ConstantParts, CoverParts, OffsetParts, OriginParts, RectangleParts, SpacingParts, ZoneParts,
};
use arc::{Pixels, Refusal, Spacing};
use card::Offset;
use origin::Origin;
use zones::Zones;

impl From<Result<Pixels, Refusal>> for ConstantParts {
    ghost from_gives = { λ answer block. block ≡ constant_block answer };

    fn from(answer: Result<Pixels, Refusal>) -> Self {
        match answer {
            Ok(pixels) => ConstantParts {
                number: 0,
                at: 0,
                pixels: pixels.count(),
            },
            Err(e) => ConstantParts {
                number: e.number(),
                at: e.place(),
                pixels: 0,
            },
        }
    }
}

impl From<Result<Spacing, Refusal>> for SpacingParts {
    ghost from_gives = { λ answer block. block ≡ spacing_block answer };

    fn from(answer: Result<Spacing, Refusal>) -> Self {
        match answer {
            Ok(Spacing { a, b }) => SpacingParts {
                number: 0,
                at: 0,
                a: a.count(),
                b: b.count(),
            },
            Err(e) => SpacingParts {
                number: e.number(),
                at: e.place(),
                a: 0,
                b: 0,
            },
        }
    }
}

impl From<Result<u64, Refusal>> for ZoneParts {
    ghost from_gives = { λ answer block. block ≡ zone_block answer };

    fn from(answer: Result<u64, Refusal>) -> Self {
        match answer {
            Ok(zone) => ZoneParts {
                number: 0,
                at: 0,
                zone,
            },
            Err(e) => ZoneParts {
                number: e.number(),
                at: e.place(),
                zone: 0,
            },
        }
    }
}

impl From<Result<Zones<6>, Refusal>> for CoverParts {
    ghost from_gives = { λ answer block. block ≡ cover_block answer };

    fn from(answer: Result<Zones<6>, Refusal>) -> Self {
        match answer {
            Ok(zones) => CoverParts {
                number: 0,
                at: 0,
                length: zones.len() as u64,
                zones: zones.slots(),
            },
            Err(e) => CoverParts {
                number: e.number(),
                at: e.place(),
                length: 0,
                zones: [0; 6],
            },
        }
    }
}

impl From<Result<Zones<18>, Refusal>> for RectangleParts {
    ghost from_gives = { λ answer block. block ≡ rectangle_block answer };

    fn from(answer: Result<Zones<18>, Refusal>) -> Self {
        match answer {
            Ok(zones) => RectangleParts {
                number: 0,
                at: 0,
                length: zones.len() as u64,
                zones: zones.slots(),
            },
            Err(e) => RectangleParts {
                number: e.number(),
                at: e.place(),
                length: 0,
                zones: [0; 18],
            },
        }
    }
}

impl From<Result<Origin, Refusal>> for OriginParts {
    ghost from_gives = { λ answer block. block ≡ origin_block answer };

    fn from(answer: Result<Origin, Refusal>) -> Self {
        match answer {
            Ok(o) => OriginParts {
                number: 0,
                at: 0,
                n: o.n,
                m: o.m,
                pso: o.pso,
                lso: o.lso,
            },
            Err(e) => OriginParts {
                number: e.number(),
                at: e.place(),
                n: 0,
                m: 0,
                pso: 0,
                lso: 0,
            },
        }
    }
}

impl From<Result<Offset, Refusal>> for OffsetParts {
    ghost from_gives = { λ answer block. block ≡ offset_block answer };

    fn from(answer: Result<Offset, Refusal>) -> Self {
        match answer {
            Ok(o) => OffsetParts {
                number: 0,
                at: 0,
                lat: o.lat,
                lon: o.lon,
            },
            Err(e) => OffsetParts {
                number: e.number(),
                at: e.place(),
                lat: 0.0,
                lon: 0.0,
            },
        }
    }
}
