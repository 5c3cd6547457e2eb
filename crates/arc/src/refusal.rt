// Why a question is not answered.
ghost use Rattle.std.specs.Prelude.{◌≡◌};

use std::error::Error;
use std::fmt;

/// Why a question is not answered. `at` is the subfield of the card, or the entry of the index, that is refused.
#[derive(Clone, Copy, Debug, PartialEq, Eq)]
pub enum Refusal {
    /// The scale, or scale times factor, is not 5,000 to 20,000,000.
    Scale,
    /// The zone is not 1 to 18.
    Zone,
    /// Zone 9 or 18, where a non-polar zone is needed.
    Polar,
    /// The latitude is outside −90° to 90°, or outside the range that the question has.
    Latitude,
    /// The longitude is outside −180° to 180°.
    Longitude,
    /// A card, an index or a store of the wrong length.
    Length,
    /// A byte of the wrong kind.
    Kind { at: u64 },
    /// A wrong value.
    Value { at: u64 },
    /// A spacing that is not that of scale and zone.
    Spacing,
    /// An origin not on the tile grid, or outside it.
    Origin,
    /// A broken extent.
    Extent,
    /// A pixel outside the tiles.
    OutsideTiles,
    /// A pixel in padding.
    Padding,
    /// A tile that is not stored.
    NotStored,
    /// A wrong index entry.
    Entry { at: u64 },
    /// The south edge is not below the north edge.
    CrossedEdges,
    /// The factor is not 1 to 64.
    Factor,
    /// Stored tiles out of reading order.
    ReadingOrder,
    /// A bit set past the last tile.
    StrayBit,
    /// A town scale, 1:5,000 to 1:9,999, at which nothing is written or aligned.
    TownScale,
}

impl Refusal {
    ghost use Rattle.arc.specs.Refusals.{refusal_number, refusal_place};

    /// The number that is handed out, 1 to 24.
    pub fn number(self) -> u32
        ensures { result ≡ refusal_number self }
    {
        match self {
            Refusal::Scale => 1,
            Refusal::Zone => 2,
            Refusal::Polar => 3,
            Refusal::Latitude => 4,
            Refusal::Longitude => 5,
            Refusal::Length => 6,
            Refusal::Kind { .. } => 7,
            Refusal::Value { .. } => 8,
            Refusal::Spacing => 9,
            Refusal::Origin => 10,
            Refusal::Extent => 11,
            Refusal::OutsideTiles => 12,
            Refusal::Padding => 13,
            Refusal::NotStored => 14,
            Refusal::Entry { .. } => 15,
            Refusal::CrossedEdges => 16,
            Refusal::Factor => 17,
            Refusal::ReadingOrder => 20,
            Refusal::StrayBit => 21,
            Refusal::TownScale => 24,
        }
    }

    /// The subfield or the entry that is refused, 0 where the refusal has none.
    pub fn place(self) -> u64
        ensures { result ≡ refusal_place self }
    {
        match self {
            Refusal::Kind { at } | Refusal::Value { at } | Refusal::Entry { at } => at,
            _ => 0,
        }
    }
}

impl fmt::Display for Refusal {
    fn fmt<W: fmt::Write>(&self, f: &mut fmt::Formatter<W>) -> fmt::Result {
        match self {
            Refusal::Scale => write!(f, "the scale is not 5,000 to 20,000,000"),
            Refusal::Zone => write!(f, "the zone is not 1 to 18"),
            Refusal::Polar => write!(f, "zone 9 or 18, where a non-polar zone is needed"),
            Refusal::Latitude => write!(f, "the latitude is outside its range"),
            Refusal::Longitude => write!(f, "the longitude is outside its range"),
            Refusal::Length => write!(f, "a card, an index or a store of the wrong length"),
            Refusal::Kind { at } => write!(f, "a byte of the wrong kind at {at}"),
            Refusal::Value { at } => write!(f, "a wrong value at {at}"),
            Refusal::Spacing => write!(f, "a spacing that is not that of scale and zone"),
            Refusal::Origin => write!(f, "an origin not on the tile grid, or outside it"),
            Refusal::Extent => write!(f, "a broken extent"),
            Refusal::OutsideTiles => write!(f, "a pixel outside the tiles"),
            Refusal::Padding => write!(f, "a pixel in padding"),
            Refusal::NotStored => write!(f, "a tile that is not stored"),
            Refusal::Entry { at } => write!(f, "a wrong index entry at {at}"),
            Refusal::CrossedEdges => write!(f, "the south edge is not below the north edge"),
            Refusal::Factor => write!(f, "the factor is not 1 to 64"),
            Refusal::ReadingOrder => write!(f, "stored tiles out of reading order"),
            Refusal::StrayBit => write!(f, "a bit set past the last tile"),
            Refusal::TownScale => write!(f, "a town scale, which is no longer written"),
        }
    }
}

impl Error for Refusal {}
