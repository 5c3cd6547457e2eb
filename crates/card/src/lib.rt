//! The image card that was read, and the questions put to it (DIGEST Support Document, "The ARC System", 3.4.3 to 3.4.5).
#![tactic(auto)]

ghost use Rattle.std.specs.Prelude.{◌≡◌};
ghost use Rattle.card_text.specs.Read.{Known};
ghost use Rattle.card.specs.Read.{card_read, card_read_strict};

use arc::{Refusal, Series};
use card_text::Fields;
use std::marker::Model;

mod grid;
pub mod laws;
mod offsets;
mod overview;
mod range;

pub use grid::extents;
pub use offsets::offset_from;
pub use range::{Ranged, count_position};

/// A card that reading did not refuse.
#[derive(Clone, Copy, Debug)]
pub struct Card {
    fields: Fields,
}

impl Model for Card {
    ghost use Rattle.card_text.specs.declared.Fields.{Fields};
    ghost use Rattle.card_text.specs.Read.{Known};

    ghost Value = { Fields };

    ghost view = { λ c. c.fields };

    ghost invariant = { λ c. Known c.fields };

    ghost inverse = { λ f. record { fields = f } };
}

/// A card as it was read, and the total of blanks that its numbers start with.
// A struct of its own beside `card_text::Reading`: one over a type parameter would have each clause say which of the two values it means.
#[derive(Clone, Copy, Debug)]
pub struct Reading {
    pub card: Card,
    pub blanks: u64,
}

impl Card {
    /// Reads a card, in which blanks may stand before a number's digits. Refuses as `card_text::read_card` does.
    pub fn read(series: Series, bytes: &[u8]) -> Result<Reading, Refusal>
        ensures { result ≡ card_read series bytes.now }
    {
        let reading = card_text::read_card(series, bytes)?;
        Ok(Reading {
            card: Card {
                fields: reading.fields,
            },
            blanks: reading.blanks,
        })
    }

    /// Reads a card none of whose numbers may start with a blank. Refuses as `read`.
    pub fn read_strict(series: Series, bytes: &[u8]) -> Result<Reading, Refusal>
        ensures { result ≡ card_read_strict series bytes.now }
    {
        let reading = card_text::read_strict(series, bytes)?;
        Ok(Reading {
            card: Card {
                fields: reading.fields,
            },
            blanks: reading.blanks,
        })
    }

    /// What the card tells, in the standard's tags.
    // The invariant is told once more: a caller's goal sees that of `self`, and not that of what a call gave.
    pub fn fields(self) -> Fields
        ensures value { result ≡ self }
        ensures known { Known result }
    {
        self.fields
    }
}

/// The two pairs of questions: a pixel's corner and the pixel whose corner is nearest, or its centre and the pixel that contains a position.
#[derive(Clone, Copy, Debug, PartialEq, Eq)]
pub enum Pair {
    Corner,
    Centre,
}

/// A place of the zone grid, in pixels: rows from the Equator north, columns round the circle.
#[derive(Clone, Copy, Debug, PartialEq, Eq)]
pub struct Place {
    pub row: i64,
    pub column: i64,
}

/// A position, in hundredths of an arc-second.
#[derive(Clone, Copy, Debug, PartialEq, Eq)]
pub struct Position {
    pub lat: i64,
    pub lon: i64,
}

/// A pixel of a card, counted from its upper left one.
#[derive(Clone, Copy, Debug, PartialEq, Eq)]
pub struct Pixel {
    pub row: i64,
    pub column: i64,
}

/// An offset from a centre, in whole hundredths of an arc-second.
#[derive(Clone, Copy, Debug)]
pub struct Offset {
    pub lat: f64,
    pub lon: f64,
}
