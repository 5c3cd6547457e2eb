// From the values of a card to its record and its fields.
ghost use Rattle.std.specs.Prelude.{◌≡◌, ◌≤◌, length};
ghost use Rattle.card_text.specs.Read.{with_values};
ghost use Rattle.card_text.specs.StepsFields.{lead_total};
ghost use Rattle.card_text.specs.StepsRead.{extents_at, record_with, fields_from, Walked};

use crate::subfields::Values;
use crate::{Fields, Reading, Record, digits, stored};
use arc::{Refusal, Series, Spacing};

/// The record, n and m being known.
fn record_of(values: Values, n: i64, m: i64) -> Record
    ensures { result ≡ record_with n m values }
{
    let bad = values.bad;
    Record {
        n,
        m,
        nul: values.extents.nul,
        nus: values.extents.nus,
        nll: values.extents.nll,
        nls: values.extents.nls,
        nfl: values.extents.nfl,
        nfc: values.extents.nfc,
        bad,
        tif: values.tif,
    }
}

/// The extents, n being counted from −B/512. A product could be too large: NLL and NUS are divided instead.
#[tactic(auto, using(crate::proofs::Tiled::in_tiles), unfolding(crate::specs::StepsRead::extents_at))]
pub fn extents_hold(a: u64, north: u64, r: Record) -> bool
    ensures { result ≡ extents_at a north r.nul r.nus r.nll r.nls r.nfl r.nfc }
{
    let rows = r.nul <= r.nll && r.nll / 128 < r.nfl;
    let columns = r.nls <= r.nus && r.nus / 128 < r.nfc;
    r.nfc <= a / 128 && r.nfl <= north && rows && columns
}

/// The total of blanks before the digits of the numbers: ARV BRV NUL NUS NLL NLS NFL NFC PNC PNL.
fn blanks_in(s: &[u8]) -> u64
    requires { length s.now ≡ 98 }
    ensures { result ≡ lead_total s.now }
{
    let spacing = digits::leading_at(s, 1, 8) + digits::leading_at(s, 9, 8);
    let rows = digits::leading_at(s, 38, 6) + digits::leading_at(s, 50, 6);
    let columns = digits::leading_at(s, 44, 6) + digits::leading_at(s, 56, 6);
    let tiles = digits::leading_at(s, 62, 3) + digits::leading_at(s, 65, 3);
    let sides = digits::leading_at(s, 68, 6) + digits::leading_at(s, 74, 6);
    spacing + rows + columns + tiles + sides
}

/// The fields of a record, its origin counted from the South Pole and from 180° west.
fn fields_of(series: Series, spacing: Spacing, north: u64, east: u64, r: Record) -> Fields
    requires north_few { north ≤ 1000000 }
    requires east_few { east ≤ 1000000 }
    ensures { result ≡ fields_from series spacing.a spacing.b north east r }
{
    let bad = r.bad;
    Fields {
        series,
        a: spacing.a.count(),
        b: spacing.b.count(),
        n: r.n,
        m: r.m,
        nul: r.nul,
        nus: r.nus,
        nll: r.nll,
        nls: r.nls,
        nfl: r.nfl,
        nfc: r.nfc,
        bad,
        tif: r.tif,
        north: 128 * north,
        east: 128 * east,
    }
}

/// The card, its subfields being right. Refuses the spacing, the origin, and the extents.
pub fn read_values(
    series: Series,
    spacing: Spacing,
    s: &[u8],
    values: Values,
) -> Result<Reading, Refusal>
    requires { Walked s.now values }
    ensures { result ≡ with_values series spacing.a spacing.b s.now }
{
    let a = spacing.a.count();
    let b = spacing.b.count();
    let stated = values.stated;
    if stated.arv != a {
        return Err(Refusal::Spacing);
    }
    if stated.brv != b {
        return Err(Refusal::Spacing);
    }
    let Some(north) = stored::tile_of(spacing.b, stated.pso) else {
        return Err(Refusal::Origin);
    };
    let Some(east) = stored::tile_of(spacing.a, stated.lso) else {
        return Err(Refusal::Origin);
    };
    let n = whole::difference(north as u32, (b / 512) as u32);
    let m = whole::difference(east as u32, (a / 256) as u32);
    let r = record_of(values, n, m);
    if !extents_hold(a, north, r) {
        return Err(Refusal::Extent);
    }
    Ok(Reading {
        fields: fields_of(series, spacing, north, east, r),
        blanks: blanks_in(s),
    })
}
