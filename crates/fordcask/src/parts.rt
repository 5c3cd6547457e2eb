// Blocks of numbers, laid out as C has them (bindings/c/fordcask.h). `number` and `at` are the refusal's number and place, both 0 in an answer; the values
// of an answer are 0 in a refusal, and so is the total of blanks of the card, which stands last. C has no `Result`, no `Option`, no `bool` and no list that
// knows its length: so numbers stand for kinds, zeros for what is not there, and a length beside an array.

/// Number and place, of a question whose answer is left in a buffer and that reads no card.
#[repr(C)]
#[derive(Clone, Copy)]
pub struct RefusalParts {
    pub number: u32,
    pub at: u64,
}

/// Number, place, and A or B alone, in pixels.
#[repr(C)]
#[derive(Clone, Copy)]
pub struct ConstantParts {
    pub number: u32,
    pub at: u64,
    pub pixels: u64,
}

/// Number, place, A and B.
#[repr(C)]
#[derive(Clone, Copy)]
pub struct SpacingParts {
    pub number: u32,
    pub at: u64,
    pub a: u64,
    pub b: u64,
}

/// Number, place and a zone.
#[repr(C)]
#[derive(Clone, Copy)]
pub struct ZoneParts {
    pub number: u32,
    pub at: u64,
    pub zone: u64,
}

/// Number, place, n and m in tiles, and the two stored angles.
#[repr(C)]
#[derive(Clone, Copy)]
pub struct OriginParts {
    pub number: u32,
    pub at: u64,
    pub n: i64,
    pub m: i64,
    pub pso: i64,
    pub lso: i64,
}

/// Number, place and the offset, in doubles.
#[repr(C)]
#[derive(Clone, Copy)]
pub struct OffsetParts {
    pub number: u32,
    pub at: u64,
    pub lat: f64,
    pub lon: f64,
}

/// Number, place, and the zones that cover a latitude: the first `length` slots, the others 0.
#[repr(C)]
#[derive(Clone, Copy)]
pub struct CoverParts {
    pub number: u32,
    pub at: u64,
    pub length: u64,
    pub zones: [u64; 6],
}

/// Number, place, and the zones of a rectangle: the first `length` slots, the others 0.
#[repr(C)]
#[derive(Clone, Copy)]
pub struct RectangleParts {
    pub number: u32,
    pub at: u64,
    pub length: u64,
    pub zones: [u64; 18],
}

/// Number, place, what a card holds, and the total of its blanks; TIF is 1 for Y.
#[repr(C)]
#[derive(Clone, Copy)]
pub struct CardParts {
    pub number: u32,
    pub at: u64,
    pub a: u64,
    pub b: u64,
    pub n: i64,
    pub m: i64,
    pub nul: u64,
    pub nus: u64,
    pub nll: u64,
    pub nls: u64,
    pub nfl: u64,
    pub nfc: u64,
    pub bad: [u8; 12],
    pub tif: u8,
    pub blanks: u64,
}

/// What is written on a card; TIF is N for 0, else Y.
#[repr(C)]
#[derive(Clone, Copy)]
pub struct RecordParts {
    pub n: i64,
    pub m: i64,
    pub nul: u64,
    pub nus: u64,
    pub nll: u64,
    pub nls: u64,
    pub nfl: u64,
    pub nfc: u64,
    pub bad: [u8; 12],
    pub tif: u8,
}

/// Number, place, and the total of blanks of the card, of a question whose answer is left in buffers.
#[repr(C)]
#[derive(Clone, Copy)]
pub struct VerdictParts {
    pub number: u32,
    pub at: u64,
    pub blanks: u64,
}

/// Number, the refusal's place, the place of the zone grid, and the total of blanks of the card.
#[repr(C)]
#[derive(Clone, Copy)]
pub struct PlaceOnCard {
    pub number: u32,
    pub at: u64,
    pub row: i64,
    pub column: i64,
    pub blanks: u64,
}

/// Number, place, latitude and longitude, and the total of blanks of the card.
#[repr(C)]
#[derive(Clone, Copy)]
pub struct PositionOnCard {
    pub number: u32,
    pub at: u64,
    pub lat: i64,
    pub lon: i64,
    pub blanks: u64,
}

/// Number, place, row and column, and the total of blanks of the card.
#[repr(C)]
#[derive(Clone, Copy)]
pub struct PixelOnCard {
    pub number: u32,
    pub at: u64,
    pub row: i64,
    pub column: i64,
    pub blanks: u64,
}

/// Number, place, row and column of an overview's pixel, and the totals of blanks of the chart's card and of the overview's.
#[repr(C)]
#[derive(Clone, Copy)]
pub struct OverviewOnCards {
    pub number: u32,
    pub at: u64,
    pub row: i64,
    pub column: i64,
    pub blanks: u64,
    pub overview_blanks: u64,
}

/// Number, place, the three band values, and the total of blanks of the card.
#[repr(C)]
#[derive(Clone, Copy)]
pub struct BandsOnCard {
    pub number: u32,
    pub at: u64,
    pub red: u8,
    pub green: u8,
    pub blue: u8,
    pub blanks: u64,
}

/// Number, place, 1 where a tile is missing, that tile, and the total of blanks of the card.
#[repr(C)]
#[derive(Clone, Copy)]
pub struct WindowOnCard {
    pub number: u32,
    pub at: u64,
    pub missing: u64,
    pub tile: u64,
    pub blanks: u64,
}

/// Number, place, the stored number of a tile, where its bytes stand in the store, and the total of blanks of the card.
#[repr(C)]
#[derive(Clone, Copy)]
pub struct TileParts {
    pub number: u32,
    pub at: u64,
    pub stored: u64,
    pub offset: u64,
    pub length: u64,
    pub blanks: u64,
}

/// Number, place, 0 for the base store or 1 for the corrections store, a tile's number and bytes there, and the total of blanks of the card.
#[repr(C)]
#[derive(Clone, Copy)]
pub struct CorrectedTile {
    pub number: u32,
    pub at: u64,
    pub source: u64,
    pub stored: u64,
    pub offset: u64,
    pub length: u64,
    pub blanks: u64,
}
