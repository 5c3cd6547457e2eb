//! Reads and writes the 98 bytes of the image card (MIL-A-89007, 3.17.1).
#![tactic(auto)]

ghost use Rattle.std.specs.Prelude.{◌≡◌};
ghost use Rattle.card_text.specs.Read.{read_in, read_as, read_of, read_strict};
ghost use Rattle.card_text.specs.Write.{write_of, out_of};

use arc::{Refusal, Series, Spacing};

mod digits;
pub mod laws;
mod read;
mod stored;
mod subfields;
mod write;

/// What a card that is read tells: the numbers of its chart, in the standard's tags.
#[derive(Clone, Copy, Debug, PartialEq, Eq)]
pub struct Fields {
    pub series: Series,
    pub a: u64,
    pub b: u64,
    pub n: i64,
    pub m: i64,
    pub nul: u64,
    pub nus: u64,
    pub nll: u64,
    pub nls: u64,
    pub nfl: u64,
    pub nfc: u64,
    pub bad: [u8; 12],
    pub tif: bool,
    /// 128n, counted from the South Pole.
    pub north: u64,
    /// 128m, counted from 180° west.
    pub east: u64,
}

/// What may stand before the digits of a number: zeros alone, or blanks too.
#[derive(Clone, Copy, Debug)]
pub enum Fill {
    Zeros,
    Blanks,
}

/// A card as it was read, and the total of blanks that its numbers start with.
#[derive(Clone, Copy, Debug, PartialEq, Eq)]
pub struct Reading {
    pub fields: Fields,
    pub blanks: u64,
}

/// What is written on a card.
#[derive(Clone, Copy, Debug, PartialEq, Eq)]
pub struct Record {
    pub n: i64,
    pub m: i64,
    pub nul: u64,
    pub nus: u64,
    pub nll: u64,
    pub nls: u64,
    pub nfl: u64,
    pub nfc: u64,
    pub bad: [u8; 12],
    pub tif: bool,
}

/// The chart's edges, top, right, bottom and left, and the tiles down and across.
#[derive(Clone, Copy, Debug, PartialEq, Eq)]
pub struct Extents {
    pub nul: u64,
    pub nus: u64,
    pub nll: u64,
    pub nls: u64,
    pub nfl: u64,
    pub nfc: u64,
}

/// Reading, the spacing being known. Refuses a polar zone, the length, then the subfields, the spacing, the origin and the extents.
#[tactic(auto, unfolding(crate::specs::Read::read_in))]
fn read_spaced(
    fill: Fill,
    series: Series,
    spacing: Spacing,
    bytes: &[u8],
) -> Result<Reading, Refusal>
    ensures { result ≡ read_in fill series spacing bytes.now }
{
    if arc::is_polar(series.zone) {
        return Err(Refusal::Polar);
    }
    if bytes.len() != 98 {
        return Err(Refusal::Length);
    }
    let values = subfields::values_in(fill, bytes)?;
    read::read_values(series, spacing, bytes, values)
}

/// Reading, whatever may fill the numbers.
fn read_as(fill: Fill, series: Series, bytes: &[u8]) -> Result<Reading, Refusal>
    ensures { result ≡ read_as fill series bytes.now }
{
    read_spaced(fill, series, series.spacing()?, bytes)
}

/// Reads a card, in which blanks may stand before a number's digits. Refuses what the spacing refuses, then a polar zone, the length, the
/// subfields from left to right, each first for its kind and then for its value, the spacing, the origin, and the extents.
pub fn read_card(series: Series, bytes: &[u8]) -> Result<Reading, Refusal>
    ensures { result ≡ read_of series bytes.now }
{
    read_as(Fill::Blanks, series, bytes)
}

/// Reads a card in which no blank may stand before a number's digits. Refuses as `read_card`.
pub fn read_strict(series: Series, bytes: &[u8]) -> Result<Reading, Refusal>
    ensures { result ≡ read_strict series bytes.now }
{
    read_as(Fill::Zeros, series, bytes)
}

/// Writes a record as a card over the first 98 bytes. Refuses what the spacing for writing refuses, then a polar zone, a shorter output, NFL,
/// NFC, BAD, the origin, and the extents; on a refusal the output stays.
#[tactic(auto, unfolding(crate::specs::Write::write_of, crate::specs::Write::out_of))]
pub fn write_card(series: Series, r: Record, out: &mut [u8]) -> Result<(), Refusal>
    ensures answer { result ≡ write_of series r out.old }
    ensures left { out.new ≡ out_of series r out.old }
{
    write::write_spaced(series.zone, series.spacing_for_writing()?, r, out)
}
