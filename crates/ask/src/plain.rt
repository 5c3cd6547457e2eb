//! Questions on numbers alone.
use crate::fault::Fault;
use crate::library;
use crate::shown::{Bits, List};
use crate::words::Words;
use std::num::saturating_f64_to_i64;

/// `spacing SCALE FACTOR ZONE`: A and B.
pub fn spacing(rt: &HostRuntime, words: &mut Words<'_>) -> Result<(), Fault> {
    let series = words.series()?;
    words.end()?;
    let r = fordcask::fordcask_spacing(series);
    println!(rt; "{} {} {} {}", r.number, r.at, r.a, r.b)?;
    Ok(())
}

/// `b_constant SCALE FACTOR`: B.
pub fn b_constant(rt: &HostRuntime, words: &mut Words<'_>) -> Result<(), Fault> {
    let scale = words.number()?;
    let factor = words.number()?;
    words.end()?;
    match library::b_constant(scale, factor) {
        Ok(b) => println!(rt; "0 0 {b}")?,
        Err(e) => println!(rt; "{} {} 0", e.number(), e.place())?,
    }
    Ok(())
}

/// `basic_zone LAT`: the zone.
pub fn basic_zone(rt: &HostRuntime, words: &mut Words<'_>) -> Result<(), Fault> {
    let lat = words.number()?;
    words.end()?;
    let r = fordcask::fordcask_basic_zone(lat);
    println!(rt; "{} {} {}", r.number, r.at, r.zone)?;
    Ok(())
}

/// `cover SCALE FACTOR LAT`: the length and the slots, the unused ones too.
pub fn cover(rt: &HostRuntime, words: &mut Words<'_>) -> Result<(), Fault> {
    let scale = words.number()?;
    let factor = words.number()?;
    let lat = words.number()?;
    words.end()?;
    let r = fordcask::fordcask_cover(scale, factor, lat);
    println!(rt; "{} {} {} {}", r.number, r.at, r.length, List(&r.zones))?;
    Ok(())
}

/// `rectangle SCALE FACTOR SOUTH NORTH`: the length and the slots, the unused ones too.
pub fn rectangle(rt: &HostRuntime, words: &mut Words<'_>) -> Result<(), Fault> {
    let scale = words.number()?;
    let factor = words.number()?;
    let south = words.number()?;
    let north = words.number()?;
    words.end()?;
    let r = fordcask::fordcask_rectangle(scale, factor, south, north);
    println!(rt; "{} {} {} {}", r.number, r.at, r.length, List(&r.zones))?;
    Ok(())
}

/// `align SCALE FACTOR ZONE LAT LON`: n, m, PSO and LSO.
pub fn align(rt: &HostRuntime, words: &mut Words<'_>) -> Result<(), Fault> {
    let series = words.series()?;
    let lat = words.number()?;
    let lon = words.number()?;
    words.end()?;
    let r = fordcask::fordcask_align(series, lat, lon);
    println!(rt; "{} {} {} {} {} {}", r.number, r.at, r.n, r.m, r.pso, r.lso)?;
    Ok(())
}

/// `offset LAT LON CENTRE_LAT CENTRE_LON`: the two differences, then the bits of their doubles.
pub fn offset(rt: &HostRuntime, words: &mut Words<'_>) -> Result<(), Fault> {
    let lat = words.number()?;
    let lon = words.number()?;
    let centre_lat = words.number()?;
    let centre_lon = words.number()?;
    words.end()?;
    let r = fordcask::fordcask_offset(lat, lon, centre_lat, centre_lon);
    let whole_lat = saturating_f64_to_i64(r.lat);
    let whole_lon = saturating_f64_to_i64(r.lon);
    print!(rt; "{} {} {whole_lat} {whole_lon}", r.number, r.at)?;
    println!(rt; " {} {}", Bits(r.lat), Bits(r.lon))?;
    Ok(())
}
