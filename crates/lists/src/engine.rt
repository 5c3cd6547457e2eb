// The engine: what a card gives once in a pair, so that no entry on its chart needs a division by A or B (DIGEST "The ARC System" 3.4.3, 3.4.4).
ghost use Rattle.std.specs.Prelude.{◌≡◌, ◌+◌, ◌-◌, ◌*◌, ◌/◌, ◌≤◌};
ghost use Rattle.card.specs.Grid.{position_of, pixel_of, position_report, pixel_report};
ghost use Rattle.lists.specs.Axes.{down_of, across_of};
ghost use Rattle.lists.specs.Bounds.{Bounds};
ghost use Rattle.lists.specs.Entries.{Agrees};

use crate::Entry;
use crate::axis::{Axis, STEP, Span, UNIT};
use arc::Circle;
use card::{Card, Pair};
use card_text::Fields;
use std::marker::Model;

/// A card in a pair: its axes, for positions, and its chart's spans, for pixels.
#[derive(Clone, Copy)]
pub struct Engine {
    card: Card,
    pair: Pair,
    rows: Axis,
    columns: Axis,
    down: Span,
    across: Span,
}

impl Model for Engine {
    ghost use Rattle.std.proofs.Common.{sym};
    ghost use Rattle.lists.specs.Chart.{Chart};

    ghost Value = { Chart };

    ghost use Rattle.lists.specs.Steps.{chart_of, engine_of, Made};

    ghost view = { chart_of };

    ghost invariant = { Made };

    ghost inverse = { λ v. engine_of v.pair v.card };

    ghost inverse_ok = { λ a h. sym h.same };
}

// The chart's rows, what is added before they are made whole being given.
fn down_of(up: u64, fields: Fields) -> Span
    requires bounds { Bounds fields }
    requires up_in_range { up ≤ 126562 }
    ensures { result ≡ down_of (fields.b / 512) (253125 * (fields.north - fields.nul) + up) fields }
{
    let unit = fields.b / 512;
    let from = UNIT * (fields.north - fields.nul) + up;
    let first = (from / unit).min(Circle::H / 2);
    Span::of(
        unit,
        first,
        from - unit * first,
        fields.nul,
        fields.nll + 1 - fields.nul,
    )
}

// The chart's columns, likewise.
fn across_of(up: u64, fields: Fields) -> Span
    requires bounds { Bounds fields }
    requires up_in_range { up ≤ 126562 }
    ensures { result ≡ across_of (fields.a / 512) (253125 * (2 * fields.a - (fields.east + fields.nls)) + up) fields }
{
    let unit = fields.a / 512;
    let from = UNIT * (2 * fields.a - (fields.east + fields.nls)) + up;
    Span::of(
        unit,
        from / unit % Circle::H,
        from % unit,
        fields.nls,
        fields.nus + 1 - fields.nls,
    )
}

impl Engine {
    /// The engine of a card for a pair.
    pub fn of(pair: Pair, card: Card) -> Self
        ensures { result ≡ record { card = card; pair = pair } }
    {
        let fields = card.fields();
        let shift = pair.inward() / 256;
        let up = (STEP / 2 - shift) / 2;
        let rows = Axis::of(fields.b, STEP * fields.north - shift, true);
        let columns = Axis::of(fields.a, STEP * fields.east + shift, false);
        let down = down_of(up, fields);
        let across = across_of(up, fields);
        Engine {
            card,
            pair,
            rows,
            columns,
            down,
            across,
        }
    }

    /// Its card.
    pub fn card(self) -> Card
        ensures { result ≡ self.card }
    {
        self.card
    }

    /// Its pair.
    pub fn pair(self) -> Pair
        ensures { result ≡ self.pair }
    {
        self.pair
    }

    /// The position of a pixel of the chart.
    pub fn position(self, row: i64, column: i64) -> Option<Entry>
        ensures { Agrees result (position_report (position_of self.pair self.card row column)) }
    {
        match self.card.judge_pixel(row, column) {
            Ok(()) => Some(Entry {
                first: self.rows.latitude(row as u64),
                second: self.columns.longitude(column as u64),
            }),
            Err(_) => None,
        }
    }

    /// The pixel of the chart at a position.
    pub fn pixel(self, lat: i64, lon: i64) -> Option<Entry>
        ensures { Agrees result (pixel_report (pixel_of self.pair self.card lat lon)) }
    {
        let south = self.down.southward(lat)?;
        let east = self.across.eastward(lon)?;
        if self.down.most < south || self.across.most < east {
            return None;
        }
        Some(Entry {
            first: self.down.pixel(south),
            second: self.across.pixel(east),
        })
    }
}
