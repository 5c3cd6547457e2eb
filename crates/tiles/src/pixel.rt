// Looking up a pixel's tile.
ghost use Rattle.std.specs.Prelude.{◌≡◌, length, nat_abs, IfOk, Ok};
ghost use Rattle.card.specs.Grid.{verdict_of};
ghost use Rattle.tiles.specs.Index.{tile_bytes, tile_of};
ghost use Rattle.tiles.specs.LookUp.{found_of, stored_by, part_at, store_at, part_by, in_band, bands_at, bands_by};
ghost use Rattle.tiles.specs.Steps.{Lies};

use crate::{Bands, Said, Source, Stored, Stores, TileIndex};
use arc::{Refusal, Tile};
use card::Card;

// A band of a tile: 128 rows of 128, POR 0.
const BAND: usize = 16_384;

// An accepted pixel's tile, by its number from 0 in the image.
#[tactic(auto, using(crate::proofs::PixelTile::tile_few))]
fn pixel_tile(card: Card, row: i64, column: i64) -> u32
    requires in_tiles { verdict_of card row column ≡ Ok tt }
    ensures { result ≡ tile_of card (nat_abs row) (nat_abs column) }
{
    (whole::size(row) / Tile::SIDE * card.fields().nfc + whole::size(column) / Tile::SIDE) as u32
}

// Where a pixel's tile is stored, the lengths being right. Refuses `OutsideTiles`, `Padding`, `NotStored`, `Entry` at the tile.
#[tactic(auto, unfolding(crate::specs::LookUp::found_of))]
fn found<I: TileIndex>(card: Card, index: &I, row: i64, column: i64) -> Result<Stored, Refusal>
    ensures { result ≡ found_of card (I.view index.now card).says row column }
{
    card.judge_pixel(row, column)?;
    let tile = pixel_tile(card, row, column);
    match index.says(card, tile) {
        Said::Stored(at) => Ok(at),
        Said::Missing => Err(Refusal::NotStored),
        Said::Above => Err(Refusal::Entry {
            at: u64::from(tile),
        }),
    }
}

/// Where a pixel's tile is stored, corrected first. Refuses `Length`, by bits `StrayBit`, then `OutsideTiles`, `Padding`, `Entry` at the tile for a correction above
/// its count, `NotStored`, and `Entry` at the tile for a number above the count. The number lies in its store.
#[tactic(auto, unfolding(crate::specs::LookUp::stored_by))]
pub fn look_up<I: TileIndex>(
    card: Card,
    index: &I,
    stores: Stores<'_>,
    row: i64,
    column: i64,
) -> Result<Stored, Refusal>
    ensures answer { result ≡ stored_by card (I.view index.now card) stores.entry.base.now stores.entry.corrections.now row column }
    ensures lies { IfOk result (λ s. Lies s.number (store_at s.source stores.entry.base.now stores.entry.corrections.now)) }
{
    index.check_with(card, stores)?;
    found(card, index, row, column)
}

impl<'a> Stores<'a> {
    // The store of that name.
    fn store(self, source: Source) -> &'a [u8]
        ensures { result.now ≡ store_at source self.entry.base.now self.entry.corrections.now }
    {
        match source {
            Source::Base => self.base,
            Source::Corrections => self.corrections,
        }
    }

    // The bytes of a stored tile, a part of the store that holds it.
    #[tactic(auto, using(crate::proofs::PartOf::taken))]
    fn part(self, at: Stored) -> &'a [u8]
        requires { Lies at.number (store_at at.source self.base.now self.corrections.now) }
        ensures { result.now ≡ part_at at.number (store_at at.source self.entry.base.now self.entry.corrections.now) }
    {
        let store = self.store(at.source);
        let start = ((at.number - 1) * Tile::BYTES) as usize;
        let end = (at.number * Tile::BYTES) as usize;
        &store[start..end]
    }
}

/// The bytes of a pixel's tile, a part of whichever of the two stores holds it; none where `look_up` refuses.
#[tactic(auto, unfolding(crate::specs::LookUp::part_by))]
pub fn tile<'a, I: TileIndex>(
    card: Card,
    index: &I,
    stores: Stores<'a>,
    row: i64,
    column: i64,
) -> &'a [u8]
    ensures { result.now ≡ part_by card (I.view index.now card) stores.entry.base.now stores.entry.corrections.now row column }
{
    match look_up(card, index, stores, row, column) {
        Ok(at) => stores.part(at),
        Err(_) => &[],
    }
}

// The band values of a pixel in its tile.
fn bands_at(tile: &[u8], row: i64, column: i64) -> Bands
    requires { length tile.now ≡ tile_bytes }
    ensures { result ≡ bands_at tile.now (in_band row column) }
{
    let i = (whole::size(row) % Tile::SIDE * Tile::SIDE
        + whole::size(column) % Tile::SIDE) as usize;
    Bands {
        red: tile[i],
        green: tile[i + BAND],
        blue: tile[i + 2 * BAND],
    }
}

/// The band values of a pixel. Refuses what `look_up` does.
#[tactic(auto, using(crate::proofs::PixelTile::part_length), unfolding(crate::specs::LookUp::bands_by, crate::specs::LookUp::part_by))]
pub fn band_values<I: TileIndex>(
    card: Card,
    index: &I,
    stores: Stores<'_>,
    row: i64,
    column: i64,
) -> Result<Bands, Refusal>
    ensures { result ≡ bands_by card (I.view index.now card) stores.entry.base.now stores.entry.corrections.now row column }
{
    let at = look_up(card, index, stores, row, column)?;
    Ok(bands_at(stores.part(at), row, column))
}
