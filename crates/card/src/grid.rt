// Places of the zone grid, positions and pixels.
ghost use Rattle.std.specs.Prelude.{◌≡◌, ◌+◌, ◌-◌, ◌*◌, ◌%◌, ◌≤◌, ◌<◌, pos, ◌-ℤ◌};
ghost use Rattle.card_text.specs.Read.{Known};
ghost use Rattle.card.specs.declared.Pair.{Pair};
ghost use Rattle.card.specs.Steps.{inward};
ghost use Rattle.card.specs.Grid.{place_row, place_column, in_tiles, in_chart, latitude_of, longitude_of, extents_of, verdict_of};
ghost use Rattle.card.specs.Grid.{row_of, column_of, place_of, position_of, pixel_at, pixel_of};

use crate::range::{self, Ranged};
use crate::{Card, Pair, Pixel, Place, Position};
use arc::{Circle, Refusal, Tile};
use card_text::{Extents, Fields};

/// v − s, round the circle of a columns.
fn turned(v: u64, s: u64, a: u64) -> u64
    requires v_in_range { v ≤ a }
    requires s_in_range { s ≤ a }
    requires positive { 1 ≤ a }
    requires at_most { a ≤ 129600000 }
    ensures { result ≡ (v + (a - s)) % a }
{
    if v < s {
        return v + (a - s);
    }
    if v - s == a {
        return 0;
    }
    v - s
}

impl Pair {
    /// How far south and east of a pixel's corner the pair's exact place is, a pixel being H.
    pub fn inward(self) -> u64
        ensures { result ≡ inward self }
    {
        match self {
            Pair::Corner => 0,
            Pair::Centre => Circle::H / 2,
        }
    }
}

/// The edges and the tiles, of any fields.
pub fn extents(fields: Fields) -> Extents
    ensures { result ≡ extents_of fields }
{
    Extents {
        nul: fields.nul,
        nus: fields.nus,
        nll: fields.nll,
        nls: fields.nls,
        nfl: fields.nfl,
        nfc: fields.nfc,
    }
}

impl Card {
    /// The edges and the tiles.
    pub fn extents(self) -> Extents
        ensures { result ≡ extents_of self }
    {
        extents(self.fields)
    }

    /// Whether a pixel is one of the tiles.
    fn in_tiles(self, row: i64, column: i64) -> bool
        ensures value { result ≡ in_tiles self row column }
        ensures known { Known self }
    {
        let rows = (Tile::SIDE * self.fields.nfl) as i64;
        let columns = (Tile::SIDE * self.fields.nfc) as i64;
        // `&`, not `&&` over ranges: tried, and the proof did not close
        ((0 <= row) & (row < rows)) & ((0 <= column) & (column < columns))
    }

    /// Whether a pixel is one of the chart.
    fn in_chart(self, row: i64, column: i64) -> bool
        ensures value { result ≡ in_chart self row column }
        ensures known { Known self }
    {
        let top = self.fields.nul as i64;
        let bottom = self.fields.nll as i64;
        let left = self.fields.nls as i64;
        let right = self.fields.nus as i64;
        // `&`, not `&&` over ranges: tried, and the proof did not close
        ((top <= row) & (row <= bottom)) & ((left <= column) & (column <= right))
    }

    /// Whether a pixel is one of the chart. Refuses a pixel outside the tiles, then one in padding. The chart lies in the tiles, so it is asked
    /// first.
    pub fn judge_pixel(self, row: i64, column: i64) -> Result<(), Refusal>
        ensures value { result ≡ verdict_of self row column }
        ensures known { Known self }
    {
        if self.in_chart(row, column) {
            return Ok(());
        }
        if self.in_tiles(row, column) {
            return Err(Refusal::Padding);
        }
        Err(Refusal::OutsideTiles)
    }

    /// 128n − r.
    fn place_row(self, row: u64) -> i64
        requires in_tiles { row < 128 * self.nfl }
        ensures { result ≡ place_row self (pos row) }
    {
        whole::difference((self.fields.north - row) as u32, (self.fields.b / 4) as u32)
    }

    /// (128m + c) modulo A.
    fn place_column(self, column: u64) -> i64
        requires in_tiles { column < 128 * self.nfc }
        ensures { result ≡ place_column self (pos column) }
    {
        ((self.fields.east + column + self.fields.a / 2) % self.fields.a) as i64
    }

    /// The nearest hundredth to the latitude of a row's exact place.
    fn latitude(self, pair: Pair, row: u64) -> i64
        requires in_tiles { row < 128 * self.nfl }
        ensures { result ≡ latitude_of pair self (pos row) }
    {
        let exact = (self.fields.north - row) * Circle::H - pair.inward();
        whole::difference(
            whole::nearest(exact, self.fields.b) as u32,
            Circle::LATITUDE,
        )
    }

    /// The nearest hundredth to the longitude of a column's exact place, brought into range.
    fn longitude(self, pair: Pair, column: u64) -> i64
        requires in_tiles { column < 128 * self.nfc }
        ensures { result ≡ longitude_of pair self (pos column) }
    {
        let exact = (self.fields.east + column) * Circle::H + pair.inward();
        let east = whole::nearest(exact, self.fields.a) % Circle::H;
        whole::difference(east as u32, Circle::LONGITUDE)
    }

    /// The row at a latitude counted from the South Pole, before the bounds are looked at.
    fn row_at(self, pair: Pair, north: u64) -> i64
        requires in_range { north ≤ 64800000 }
        ensures { result ≡ row_of pair self (pos north -ℤ pos 32400000) }
    {
        let half = self.fields.b / 2;
        // half a pixel for the nearest, nothing for the floor
        let up = Circle::H / 2 - pair.inward();
        let rows = ((self.fields.north + half) * Circle::H - north * self.fields.b + up)
            / Circle::H;
        whole::difference(rows as u32, half as u32)
    }

    /// The column at a longitude counted from 180° west, before the bounds are looked at.
    fn column_at(self, pair: Pair, east: u64) -> i64
        requires in_range { east ≤ 129600000 }
        ensures { result ≡ column_of pair self (pos east -ℤ pos 64800000) }
    {
        let up = Circle::H / 2 - pair.inward();
        turned(
            (east * self.fields.a + up) / Circle::H,
            self.fields.east,
            self.fields.a,
        ) as i64
    }

    /// The place of a pixel on the zone grid. Refuses a pixel outside the tiles.
    pub fn place(self, row: i64, column: i64) -> Result<Place, Refusal>
        ensures { result ≡ place_of self row column }
    {
        if !self.in_tiles(row, column) {
            return Err(Refusal::OutsideTiles);
        }
        Ok(Place {
            row: self.place_row(row as u64),
            column: self.place_column(column as u64),
        })
    }

    /// The position of a pixel in either pair. Refuses a pixel outside the tiles, then one in padding.
    pub fn position_in(self, pair: Pair, row: i64, column: i64) -> Result<Position, Refusal>
        ensures { result ≡ position_of pair self row column }
    {
        self.judge_pixel(row, column)?;
        Ok(Position {
            lat: self.latitude(pair, row as u64),
            lon: self.longitude(pair, column as u64),
        })
    }

    /// The position of a pixel's centre. Refuses a pixel outside the tiles, then one in padding.
    pub fn position(self, row: i64, column: i64) -> Result<Position, Refusal>
        ensures { result ≡ position_of Pair.Centre self row column }
    {
        self.position_in(Pair::Centre, row, column)
    }

    /// The pixel found, within the bounds.
    fn pixel_at(self, row: i64, column: i64) -> Result<Pixel, Refusal>
        ensures { result ≡ pixel_at self row column }
    {
        self.judge_pixel(row, column)?;
        Ok(Pixel { row, column })
    }

    /// The pixel at a position in either pair. Refuses the latitude, the longitude, then a pixel outside the tiles, then one in padding.
    pub fn pixel_in(self, pair: Pair, lat: i64, lon: i64) -> Result<Pixel, Refusal>
        ensures { result ≡ pixel_of pair self lat lon }
    {
        let Ranged { north, east } = range::count_position(lat, lon)?;
        self.pixel_at(self.row_at(pair, north), self.column_at(pair, east))
    }

    /// The pixel that contains a position. Refuses as `pixel_in` does.
    pub fn pixel(self, lat: i64, lon: i64) -> Result<Pixel, Refusal>
        ensures { result ≡ pixel_of Pair.Centre self lat lon }
    {
        self.pixel_in(Pair::Centre, lat, lon)
    }
}
