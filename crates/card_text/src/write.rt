// From a record to the bytes of a card.
ghost use Rattle.std.specs.Prelude.{◌≡◌, ◌≤◌, length, if◌then◌else◌};
ghost use Rattle.text.specs.Buffer.{put_at};
ghost use Rattle.whole.specs.Lists.{over};
ghost use Rattle.origin.specs.Origin.{stored_angle};
ghost use Rattle.card_text.specs.Write.{card_text, first, write_in};
ghost use Rattle.card_text.specs.StepsWrite.{count_tests, out_in};

use crate::{Record, digits, read, stored};
use arc::{Circle, Refusal, Spacing};

/// NFL, NFC, BAD.
fn judge_counts(r: Record) -> Result<(), Refusal>
    ensures { result ≡ first (count_tests r) }
{
    if !(1..=999).contains(&r.nfl) {
        return Err(Refusal::Value { at: 62 });
    }
    if !(1..=999).contains(&r.nfc) {
        return Err(Refusal::Value { at: 65 });
    }
    if !digits::name_laid(&r.bad) {
        return Err(Refusal::Kind { at: 85 });
    }
    Ok(())
}

/// TIF.
fn flag(tif: bool) -> u8
    ensures { result ≡ (if tif then 89 else 78) }
{
    if tif { b'Y' } else { b'N' }
}

/// BAD's twelve bytes.
fn put_name(out: &mut [u8], bad: [u8; 12])
    ensures left { out.new ≡ put_at bad 85 out.old }
    ensures width { length bad ≡ 12 }
{
    text::put_bytes(out, 85, &bad);
}

/// STR ARV BRV LSO PSO NUL NUS NLL NLS NFL NFC PNC PNL COD ROD POR PCB PVB BAD TIF of a record, its stored origin being known.
fn put_card(out: &mut [u8], a: u64, b: u64, lat: i64, lon: i64, r: Record)
    requires room { 98 ≤ length out.old }
    requires lat_stored { lat ≡ stored_angle b r.n }
    requires lon_stored { lon ≡ stored_angle a r.m }
    ensures { out.new ≡ over (card_text a b r) out.old }
{
    text::put_number(out, 0, 1, 3);
    text::put_number(out, 1, 8, a);
    text::put_number(out, 9, 8, b);
    text::put_angle(out, 17, 3, lon);
    text::put_angle(out, 28, 2, lat);
    text::put_number(out, 38, 6, r.nul);
    text::put_number(out, 44, 6, r.nus);
    text::put_number(out, 50, 6, r.nll);
    text::put_number(out, 56, 6, r.nls);
    text::put_number(out, 62, 3, r.nfl);
    text::put_number(out, 65, 3, r.nfc);
    text::put_number(out, 68, 6, 128);
    text::put_number(out, 74, 6, 128);
    text::put_number(out, 80, 1, 0);
    text::put_number(out, 81, 1, 1);
    text::put_number(out, 82, 1, 0);
    text::put_number(out, 83, 1, 0);
    text::put_number(out, 84, 1, 8);
    put_name(out, r.bad);
    text::put_byte(out, 97, flag(r.tif));
}

/// Writing, the spacing being known. Refuses a polar zone, a short output, then NFL, NFC, BAD, then the origin and the extents; on a refusal the
/// output stays.
pub fn write_spaced(zone: u64, spacing: Spacing, r: Record, out: &mut [u8]) -> Result<(), Refusal>
    ensures answer { result ≡ write_in zone spacing r (length out.old) }
    ensures left { out.new ≡ out_in zone spacing r out.old }
{
    if arc::is_polar(zone) {
        return Err(Refusal::Polar);
    }
    if out.len() < 98 {
        return Err(Refusal::Length);
    }
    judge_counts(r)?;
    let a = spacing.a.count();
    let b = spacing.b.count();
    let Some(north) = whole::count_from(r.n, (b / 512) as u32) else {
        return Err(Refusal::Origin);
    };
    let Some(east) = whole::count_from(r.m, (a / 256) as u32) else {
        return Err(Refusal::Origin);
    };
    if !read::extents_hold(a, north, r) {
        return Err(Refusal::Extent);
    }
    let lat = stored::angle_at(north, spacing.b, Circle::LATITUDE);
    let lon = stored::angle_at(east, spacing.a, Circle::LONGITUDE);
    put_card(out, a, b, lat, lon, r);
    Ok(())
}
