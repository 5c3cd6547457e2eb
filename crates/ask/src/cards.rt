//! Questions on a card.
use crate::fault::{BadLine, Fault};
use crate::library;
use crate::shown::{Blanks, Bytes, TwoOnCard};
use crate::stated::{Card, MOST};
use crate::words::Words;
use arc::Series;
use fordcask::{CardParts, RecordParts};

/// `read_card SCALE FACTOR ZONE CARD`: what the card holds.
pub fn read_card(rt: &HostRuntime, words: &mut Words<'_>) -> Result<(), Fault> {
    let mut bytes = [0; MOST];
    let card = words.card(&mut bytes)?;
    words.end()?;
    print_card(rt, fordcask::fordcask_read_card(card.series, card.bytes))
}

/// `read_strict SCALE FACTOR ZONE CARD`: the same, with no blank before a digit.
pub fn read_strict(rt: &HostRuntime, words: &mut Words<'_>) -> Result<(), Fault> {
    let mut bytes = [0; MOST];
    let card = words.card(&mut bytes)?;
    words.end()?;
    print_card(rt, fordcask::fordcask_read_strict(card.series, card.bytes))
}

/// What reading answered.
fn print_card(rt: &HostRuntime, k: CardParts) -> Result<(), Fault> {
    print!(rt; "{} {} {} {} {} {}", k.number, k.at, k.a, k.b, k.n, k.m)?;
    print!(rt;
        " {} {} {} {} {} {}",
        k.nul, k.nus, k.nll, k.nls, k.nfl, k.nfc
    )?;
    println!(rt; " {} {}{}", Bytes(&k.bad), k.tif, Blanks(k.blanks))?;
    Ok(())
}

/// The words of a record, in the order of the C header.
fn record(words: &mut Words<'_>) -> Result<RecordParts, BadLine> {
    let mut bad = [0; 12];
    let mut record = RecordParts {
        n: words.number()?,
        m: words.number()?,
        nul: words.number()?,
        nus: words.number()?,
        nll: words.number()?,
        nls: words.number()?,
        nfl: words.number()?,
        nfc: words.number()?,
        bad,
        tif: 0,
    };
    if words.bytes(&mut bad)?.len() != bad.len() {
        return Err(BadLine);
    }
    record.bad = bad;
    record.tif = words.number()?;
    Ok(record)
}

/// `write_card SCALE FACTOR ZONE N M NUL NUS NLL NLS NFL NFC BAD TIF LENGTH`: the output that is lent.
pub fn write_card(rt: &HostRuntime, words: &mut Words<'_>) -> Result<(), Fault> {
    let mut out = [b'*'; MOST];
    let series = words.series()?;
    let record = record(words)?;
    let out = words.lent(&mut out)?;
    words.end()?;
    let r = fordcask::fordcask_write_card(series, record, out);
    println!(rt; "{} {} {}", r.number, r.at, Bytes(out))?;
    Ok(())
}

/// `extents SCALE FACTOR ZONE CARD`: the edges and the tiles.
pub fn extents(rt: &HostRuntime, words: &mut Words<'_>) -> Result<(), Fault> {
    let mut bytes = [0; MOST];
    let card = words.card(&mut bytes)?;
    words.end()?;
    match library::extents(card) {
        Ok(e) => {
            print!(rt; "0 0 {} {} {}", e.nul, e.nus, e.nll)?;
            println!(rt; " {} {} {}", e.nls, e.nfl, e.nfc)?;
        }
        Err(e) => println!(rt; "{} {} 0 0 0 0 0 0", e.number(), e.place())?,
    }
    Ok(())
}

/// Asks a card by a pixel's row and column or by a position's latitude and longitude, and prints the two numbers that it answers.
fn two<F: FnOnce(Series, &[u8], i64, i64) -> TwoOnCard>(
    rt: &HostRuntime,
    words: &mut Words<'_>,
    question: F,
) -> Result<(), Fault>
    requires { F.IsAlwaysCallable question }
{
    let mut bytes = [0; MOST];
    let Card { series, bytes } = words.card(&mut bytes)?;
    let first = words.number()?;
    let second = words.number()?;
    words.end()?;
    println!(rt; "{}", question(series, bytes, first, second))?;
    Ok(())
}

/// `place SCALE FACTOR ZONE CARD ROW COLUMN`: the place on the zone grid.
pub fn place(rt: &HostRuntime, words: &mut Words<'_>) -> Result<(), Fault> {
    two(rt, words, |series, card, row, column| {
        fordcask::fordcask_place(series, card, row, column).into()
    })
}

/// `position SCALE FACTOR ZONE CARD ROW COLUMN`: the position of the pixel's centre.
pub fn position(rt: &HostRuntime, words: &mut Words<'_>) -> Result<(), Fault> {
    two(rt, words, |series, card, row, column| {
        fordcask::fordcask_position(series, card, row, column).into()
    })
}

/// `corner_position SCALE FACTOR ZONE CARD ROW COLUMN`: the position of the pixel's corner.
pub fn corner_position(rt: &HostRuntime, words: &mut Words<'_>) -> Result<(), Fault> {
    two(rt, words, |series, card, row, column| {
        fordcask::fordcask_corner_position(series, card, row, column).into()
    })
}

/// `pixel SCALE FACTOR ZONE CARD LAT LON`: the pixel that contains the position.
pub fn pixel(rt: &HostRuntime, words: &mut Words<'_>) -> Result<(), Fault> {
    two(rt, words, |series, card, lat, lon| {
        fordcask::fordcask_pixel(series, card, lat, lon).into()
    })
}

/// `corner_pixel SCALE FACTOR ZONE CARD LAT LON`: the pixel whose corner is nearest.
pub fn corner_pixel(rt: &HostRuntime, words: &mut Words<'_>) -> Result<(), Fault> {
    two(rt, words, |series, card, lat, lon| {
        fordcask::fordcask_corner_pixel(series, card, lat, lon).into()
    })
}

/// `judge_pixel SCALE FACTOR ZONE CARD ROW COLUMN`: no values.
pub fn judge_pixel(rt: &HostRuntime, words: &mut Words<'_>) -> Result<(), Fault> {
    let mut bytes = [0; MOST];
    let card = words.card(&mut bytes)?;
    let pixel = words.pixel()?;
    words.end()?;
    match library::judge_pixel(card, pixel) {
        Ok(()) => println!(rt; "0 0")?,
        Err(e) => println!(rt; "{} {}", e.number(), e.place())?,
    }
    Ok(())
}

/// `overview_pixel`, scale, factor, zone and card of a chart and of its overview, `ROW COLUMN`: the overview's pixel.
pub fn overview_pixel(rt: &HostRuntime, words: &mut Words<'_>) -> Result<(), Fault> {
    let mut bytes = [0; MOST];
    let mut over = [0; MOST];
    let chart = words.card(&mut bytes)?;
    let overview = words.card(&mut over)?;
    let pixel = words.pixel()?;
    words.end()?;
    let r = fordcask::fordcask_overview_pixel(
        chart.series,
        chart.bytes,
        overview.series,
        overview.bytes,
        pixel.row,
        pixel.column,
    );
    print!(rt; "{} {} {} {}", r.number, r.at, r.row, r.column)?;
    if r.blanks != 0 || r.overview_blanks != 0 {
        print!(rt; " blanks {} {}", r.blanks, r.overview_blanks)?;
    }
    println!(rt)?;
    Ok(())
}
