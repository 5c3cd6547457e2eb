// The zones' constants (DIGEST, "The ARC System", Tables 3-1 and 3-5), and spacing as a function of each type. Nine types, though the table alone would be
// shorter: docs/RULES.md wants a zone's limits and unit as constants of its own kind, and spacing a function of the type.
ghost use Rattle.std.specs.Prelude.{◌≡◌, ℕ};
ghost use Rattle.std.proofs.Common.{lit≤};
ghost use Rattle.arc.specs.Zones.{row_at};
ghost use Rattle.arc.specs.Pixels.{spacing_at, SpacingUnit};

use crate::zone_table::TABLE;
use crate::{Pixels, Scale};

/// What has a spacing: a zone, along a parallel, or the meridian.
pub trait Spaced {
    ghost UNIT: { ℕ };

    /// A / 512 of the zone, or B / 512, at 1:1,000,000.
    const UNIT: u64;

    /// Pixels round a parallel of the zone, or round a meridian.
    fn spacing(scale: Scale) -> Pixels
        ensures { result ≡ spacing_at UNIT scale }
    {
        Pixels::at(Self::UNIT, scale)
    }

    ghost unit_in_range: { SpacingUnit UNIT };
}

/// A zone north of the Equator, with its mirror south of it.
pub trait Zone: Spaced {
    ghost EQUATORWARD: { ℕ };

    ghost POLEWARD: { ℕ };

    /// Where the zone begins, in hundredths of an arc-second from the Equator.
    const EQUATORWARD: u64;

    /// Where it ends, likewise.
    const POLEWARD: u64;
}

/// B, the same in every zone.
#[derive(Clone, Copy)]
pub struct Meridian;

impl Spaced for Meridian {
    ghost UNIT = { 782 };

    ghost unit_in_range = { record { least = lit≤ tt; most = lit≤ tt } };

    const UNIT: u64 = 782;
}

/// Zones 1 and 10.
#[derive(Clone, Copy)]
pub struct Zone1;

impl Spaced for Zone1 {
    ghost UNIT = { (row_at 0).unit };

    ghost unit_in_range = { record { least = lit≤ tt; most = lit≤ tt } };

    const UNIT: u64 = TABLE[0].unit;
}

impl Zone for Zone1 {
    ghost EQUATORWARD = { (row_at 0).equatorward };

    ghost POLEWARD = { (row_at 0).poleward };

    const EQUATORWARD: u64 = TABLE[0].equatorward;

    const POLEWARD: u64 = TABLE[0].poleward;
}

/// Zones 2 and 11.
#[derive(Clone, Copy)]
pub struct Zone2;

impl Spaced for Zone2 {
    ghost UNIT = { (row_at 1).unit };

    ghost unit_in_range = { record { least = lit≤ tt; most = lit≤ tt } };

    const UNIT: u64 = TABLE[1].unit;
}

impl Zone for Zone2 {
    ghost EQUATORWARD = { (row_at 1).equatorward };

    ghost POLEWARD = { (row_at 1).poleward };

    const EQUATORWARD: u64 = TABLE[1].equatorward;

    const POLEWARD: u64 = TABLE[1].poleward;
}

/// Zones 3 and 12.
#[derive(Clone, Copy)]
pub struct Zone3;

impl Spaced for Zone3 {
    ghost UNIT = { (row_at 2).unit };

    ghost unit_in_range = { record { least = lit≤ tt; most = lit≤ tt } };

    const UNIT: u64 = TABLE[2].unit;
}

impl Zone for Zone3 {
    ghost EQUATORWARD = { (row_at 2).equatorward };

    ghost POLEWARD = { (row_at 2).poleward };

    const EQUATORWARD: u64 = TABLE[2].equatorward;

    const POLEWARD: u64 = TABLE[2].poleward;
}

/// Zones 4 and 13.
#[derive(Clone, Copy)]
pub struct Zone4;

impl Spaced for Zone4 {
    ghost UNIT = { (row_at 3).unit };

    ghost unit_in_range = { record { least = lit≤ tt; most = lit≤ tt } };

    const UNIT: u64 = TABLE[3].unit;
}

impl Zone for Zone4 {
    ghost EQUATORWARD = { (row_at 3).equatorward };

    ghost POLEWARD = { (row_at 3).poleward };

    const EQUATORWARD: u64 = TABLE[3].equatorward;

    const POLEWARD: u64 = TABLE[3].poleward;
}

/// Zones 5 and 14.
#[derive(Clone, Copy)]
pub struct Zone5;

impl Spaced for Zone5 {
    ghost UNIT = { (row_at 4).unit };

    ghost unit_in_range = { record { least = lit≤ tt; most = lit≤ tt } };

    const UNIT: u64 = TABLE[4].unit;
}

impl Zone for Zone5 {
    ghost EQUATORWARD = { (row_at 4).equatorward };

    ghost POLEWARD = { (row_at 4).poleward };

    const EQUATORWARD: u64 = TABLE[4].equatorward;

    const POLEWARD: u64 = TABLE[4].poleward;
}

/// Zones 6 and 15.
#[derive(Clone, Copy)]
pub struct Zone6;

impl Spaced for Zone6 {
    ghost UNIT = { (row_at 5).unit };

    ghost unit_in_range = { record { least = lit≤ tt; most = lit≤ tt } };

    const UNIT: u64 = TABLE[5].unit;
}

impl Zone for Zone6 {
    ghost EQUATORWARD = { (row_at 5).equatorward };

    ghost POLEWARD = { (row_at 5).poleward };

    const EQUATORWARD: u64 = TABLE[5].equatorward;

    const POLEWARD: u64 = TABLE[5].poleward;
}

/// Zones 7 and 16.
#[derive(Clone, Copy)]
pub struct Zone7;

impl Spaced for Zone7 {
    ghost UNIT = { (row_at 6).unit };

    ghost unit_in_range = { record { least = lit≤ tt; most = lit≤ tt } };

    const UNIT: u64 = TABLE[6].unit;
}

impl Zone for Zone7 {
    ghost EQUATORWARD = { (row_at 6).equatorward };

    ghost POLEWARD = { (row_at 6).poleward };

    const EQUATORWARD: u64 = TABLE[6].equatorward;

    const POLEWARD: u64 = TABLE[6].poleward;
}

/// Zones 8 and 17.
#[derive(Clone, Copy)]
pub struct Zone8;

impl Spaced for Zone8 {
    ghost UNIT = { (row_at 7).unit };

    ghost unit_in_range = { record { least = lit≤ tt; most = lit≤ tt } };

    const UNIT: u64 = TABLE[7].unit;
}

impl Zone for Zone8 {
    ghost EQUATORWARD = { (row_at 7).equatorward };

    ghost POLEWARD = { (row_at 7).poleward };

    const EQUATORWARD: u64 = TABLE[7].equatorward;

    const POLEWARD: u64 = TABLE[7].poleward;
}

/// Zones 9 and 18.
#[derive(Clone, Copy)]
pub struct Zone9;

impl Spaced for Zone9 {
    ghost UNIT = { (row_at 8).unit };

    ghost unit_in_range = { record { least = lit≤ tt; most = lit≤ tt } };

    const UNIT: u64 = TABLE[8].unit;
}

impl Zone for Zone9 {
    ghost EQUATORWARD = { (row_at 8).equatorward };

    ghost POLEWARD = { (row_at 8).poleward };

    const EQUATORWARD: u64 = TABLE[8].equatorward;

    const POLEWARD: u64 = TABLE[8].poleward;
}
