// The zone table (DIGEST, "The ARC System", Tables 3-1 and 3-5).
ghost use Rattle.std.specs.Prelude.{◌≡◌};
ghost use Rattle.arc.specs.Zones.{row_at};

use crate::Circle;

/// A row of the table: its two zones, its limits in hundredths of an arc-second, and A / 512 at 1:1,000,000.
#[derive(Clone, Copy, Debug, PartialEq, Eq)]
pub struct Row {
    pub northern: u64,
    pub southern: u64,
    pub equatorward: u64,
    pub poleward: u64,
    pub unit: u64,
}

/// The nine rows, from the Equator to the pole.
pub const TABLE: [Row; 9] = [
    Row {
        northern: 1,
        southern: 10,
        equatorward: 0,
        poleward: 32 * Circle::DEGREE,
        unit: 722,
    },
    Row {
        northern: 2,
        southern: 11,
        equatorward: 32 * Circle::DEGREE,
        poleward: 48 * Circle::DEGREE,
        unit: 591,
    },
    Row {
        northern: 3,
        southern: 12,
        equatorward: 48 * Circle::DEGREE,
        poleward: 56 * Circle::DEGREE,
        unit: 480,
    },
    Row {
        northern: 4,
        southern: 13,
        equatorward: 56 * Circle::DEGREE,
        poleward: 64 * Circle::DEGREE,
        unit: 389,
    },
    Row {
        northern: 5,
        southern: 14,
        equatorward: 64 * Circle::DEGREE,
        poleward: 68 * Circle::DEGREE,
        unit: 319,
    },
    Row {
        northern: 6,
        southern: 15,
        equatorward: 68 * Circle::DEGREE,
        poleward: 72 * Circle::DEGREE,
        unit: 268,
    },
    Row {
        northern: 7,
        southern: 16,
        equatorward: 72 * Circle::DEGREE,
        poleward: 76 * Circle::DEGREE,
        unit: 215,
    },
    Row {
        northern: 8,
        southern: 17,
        equatorward: 76 * Circle::DEGREE,
        poleward: 80 * Circle::DEGREE,
        unit: 161,
    },
    Row {
        northern: 9,
        southern: 18,
        equatorward: 80 * Circle::DEGREE,
        poleward: 90 * Circle::DEGREE,
        unit: 782,
    },
];

/// The row at a place, 0 to 8 from the Equator to the pole; all 0 past them.
fn row_at(place: u64) -> Row
    ensures { result ≡ row_at place }
{
    match TABLE.get(place as usize) {
        Some(&row) => row,
        None => Row {
            northern: 0,
            southern: 0,
            equatorward: 0,
            poleward: 0,
            unit: 0,
        },
    }
}

/// The northern zone of the row at a place, 0 to 8; 0 past them.
pub fn northern(row: u64) -> u64
    ensures { result ≡ (row_at row).northern }
{
    row_at(row).northern
}

/// The southern zone of the row at a place, 0 to 8; 0 past them.
pub fn southern(row: u64) -> u64
    ensures { result ≡ (row_at row).southern }
{
    row_at(row).southern
}

/// The equatorward limit of the row at a place, 0 to 8, in hundredths of an arc-second; 0 past them.
pub fn equatorward(row: u64) -> u64
    ensures { result ≡ (row_at row).equatorward }
{
    row_at(row).equatorward
}

/// The poleward limit of the row at a place, 0 to 8, in hundredths of an arc-second; 0 past them.
pub fn poleward(row: u64) -> u64
    ensures { result ≡ (row_at row).poleward }
{
    row_at(row).poleward
}
