//! The parts of an answer as they are printed.
use fordcask::{PixelOnCard, PlaceOnCard, PositionOnCard};
use std::fmt;

/// Bytes: those from `!` to `~` but the backslash as they are, the others as `\xHH`.
#[derive(Clone, Copy)]
pub struct Bytes<'a>(pub &'a [u8]);

impl fmt::Display for Bytes<'_> {
    fn fmt<W: fmt::Write>(&self, f: &mut fmt::Formatter<W>) -> fmt::Result {
        for byte in self.0 {
            match *byte {
                b'\\' => f.write_str("\\x5c")?,
                b'!'..=b'~' => f.write_char(char::from(*byte))?,
                other => write!(f, "\\x{other:02x}")?,
            }
        }
        Ok(())
    }
}

/// A list of numbers.
#[derive(Clone, Copy)]
pub struct List<'a, T>(pub &'a [T]);

impl<T: fmt::Display> fmt::Display for List<'_, T> {
    fn fmt<W: fmt::Write>(&self, f: &mut fmt::Formatter<W>) -> fmt::Result {
        f.write_str("[")?;
        for (i, number) in self.0.iter().enumerate() {
            if i > 0 {
                f.write_str(",")?;
            }
            write!(f, "{number}")?;
        }
        f.write_str("]")
    }
}

/// The first and the last byte of a part of a store, which may be empty.
#[derive(Clone, Copy)]
pub struct Ends<'a>(pub &'a [u8]);

impl fmt::Display for Ends<'_> {
    fn fmt<W: fmt::Write>(&self, f: &mut fmt::Formatter<W>) -> fmt::Result {
        match (self.0.first(), self.0.last()) {
            (Some(first), Some(last)) => write!(f, "[{first},{last}]"),
            _ => f.write_str("[]"),
        }
    }
}

/// The end of a line on a card: the total of its blanks, where there are any.
#[derive(Clone, Copy)]
pub struct Blanks(pub u64);

impl fmt::Display for Blanks {
    fn fmt<W: fmt::Write>(&self, f: &mut fmt::Formatter<W>) -> fmt::Result {
        if self.0 == 0 {
            return Ok(());
        }
        write!(f, " blanks {}", self.0)
    }
}

/// The bits of a double, which show that it has no fraction and is no minus zero.
#[derive(Clone, Copy)]
pub struct Bits(pub f64);

impl fmt::Display for Bits {
    fn fmt<W: fmt::Write>(&self, f: &mut fmt::Formatter<W>) -> fmt::Result {
        // a difference is never NaN, which `to_bits` does not take
        if self.0.is_nan() {
            return Ok(());
        }
        write!(f, "{:016x}", self.0.to_bits())
    }
}

/// Two numbers that a card answers, behind number and place and before the blanks.
#[derive(Clone, Copy)]
pub struct TwoOnCard {
    number: u32,
    at: u64,
    first: i64,
    second: i64,
    blanks: u64,
}

impl fmt::Display for TwoOnCard {
    fn fmt<W: fmt::Write>(&self, f: &mut fmt::Formatter<W>) -> fmt::Result {
        write!(
            f,
            "{} {} {} {}",
            self.number, self.at, self.first, self.second
        )?;
        write!(f, "{}", Blanks(self.blanks))
    }
}

impl From<PlaceOnCard> for TwoOnCard {
    fn from(r: PlaceOnCard) -> TwoOnCard {
        TwoOnCard {
            number: r.number,
            at: r.at,
            first: r.row,
            second: r.column,
            blanks: r.blanks,
        }
    }
}

impl From<PositionOnCard> for TwoOnCard {
    fn from(r: PositionOnCard) -> TwoOnCard {
        TwoOnCard {
            number: r.number,
            at: r.at,
            first: r.lat,
            second: r.lon,
            blanks: r.blanks,
        }
    }
}

impl From<PixelOnCard> for TwoOnCard {
    fn from(r: PixelOnCard) -> TwoOnCard {
        TwoOnCard {
            number: r.number,
            at: r.at,
            first: r.row,
            second: r.column,
            blanks: r.blanks,
        }
    }
}
