// Constants of the whole system.
ghost use Rattle.std.specs.Prelude.{◌≡◌};
ghost use Rattle.arc.specs.Scales.{is_scale, is_factor};
ghost use Rattle.arc.specs.TownScales.{is_town_scale};
ghost use Rattle.arc.specs.Zones.{is_polar};

/// The circle, in hundredths of an arc-second.
#[derive(Clone, Copy)]
pub struct Circle;

impl Circle {
    /// The whole circle.
    pub const H: u64 = 129_600_000;

    /// 180°.
    pub const HALF: u64 = 64_800_000;

    /// 90°.
    pub const QUARTER: u64 = 32_400_000;

    /// One degree.
    pub const DEGREE: u64 = 360_000;

    /// The limit of a latitude on either side, 90°, as `whole::count_from` takes it.
    pub const LATITUDE: u32 = Self::QUARTER as u32;

    /// The limit of a longitude on either side, 180°, likewise.
    pub const LONGITUDE: u32 = Self::HALF as u32;
}

/// A tile of 128 by 128 pixels.
#[derive(Clone, Copy)]
pub struct Tile;

impl Tile {
    /// Its side in pixels.
    pub const SIDE: u64 = 128;

    /// Its bytes, three for each pixel.
    pub const BYTES: u64 = 49_152;

    /// A tile's side in hundredths of an arc-second, times A or B.
    pub const ANGLE: u64 = Self::SIDE * Circle::H;
}

/// The overlap of a zone poleward: 1024 rows (DIGEST, "The ARC System", 3.3.3).
#[derive(Clone, Copy)]
pub struct Overlap;

impl Overlap {
    /// The overlap in hundredths of an arc-second, times B.
    pub const ANGLE: u64 = 1024 * Circle::H;
}

/// The scales served, S of 1:S.
#[derive(Clone, Copy)]
pub struct Scales;

impl Scales {
    /// The least that is served.
    pub const LEAST: u64 = 5_000;

    /// The last of the town scales, which begin at LEAST.
    pub const LAST_TOWN: u64 = 9_999;

    /// The greatest that is served.
    pub const MOST: u64 = 20_000_000;
}

/// The factors of an overview, 1 to MOST; 1 is a chart's.
#[derive(Clone, Copy)]
pub struct Factors;

impl Factors {
    /// The greatest that is served.
    pub const MOST: u64 = 64;
}

/// Whether a number is a scale that is served: 5,000 to 20,000,000.
pub fn is_scale(scale: u64) -> bool
    ensures { result ≡ is_scale scale }
{
    (Scales::LEAST..=Scales::MOST).contains(&scale)
}

/// Whether a number is a factor that is served: 1 to 64.
pub fn is_factor(factor: u64) -> bool
    ensures { result ≡ is_factor factor }
{
    (1..=Factors::MOST).contains(&factor)
}

/// Whether a number is a town scale: 5,000 to 9,999.
pub fn is_town_scale(scale: u64) -> bool
    ensures { result ≡ is_town_scale scale }
{
    (Scales::LEAST..=Scales::LAST_TOWN).contains(&scale)
}

/// Whether a zone is polar: 9 or 18.
pub fn is_polar(zone: u64) -> bool
    ensures { result ≡ is_polar zone }
{
    matches!(zone, 9 | 18)
}
