//! The words of a question after its name, one blank between two.
ghost use Rattle.std.specs.Prelude.{◌<◌, length, IfSome};
ghost use Rattle.ask.specs.Steps.{Fills};

use crate::MEBIBYTE;
use crate::fault::BadLine;
use crate::stated::{Card, Form, Index, Stated};
use arc::Series;
use card::Pixel;
use std::str::{FromStr, Split};
use tiles::Window;

/// The words that are still to be read.
#[derive(Drop)]
pub struct Words<'a> {
    left: Split<'a, char>,
}

/// The number that a word is: decimal digits, for a signed type with a minus before them or none.
fn number<T: FromStr>(word: &str) -> Option<T>
where
    T::Err: Drop,
{
    // `parse` takes a plus, and a question has none
    if word.starts_with('+') {
        return None;
    }
    word.parse().ok()
}

/// Puts a list of numbers, `[]` or `[1,0,2]`, at a buffer's start, and says how many they are.
fn read_list<T: FromStr + Drop>(word: &str, out: &mut [T]) -> Option<usize>
where
    T::Err: Drop,
    ensures { IfSome result (λ n. Fills n out.new) }
{
    let numbers = word.strip_prefix('[')?.strip_suffix(']')?;
    if numbers.is_empty() {
        return Some(0);
    }
    let mut n = 0;
    for word in numbers.split(',') {
        *out.get_mut(n)? = number(word)?;
        n += 1;
    }
    Some(n)
}

/// What two hexadecimal digits stand for.
fn hexadecimal(high: u8, low: u8) -> Option<u8> {
    let high = char::from(high).to_digit(16)?;
    let low = char::from(low).to_digit(16)?;
    u8::try_from(high * 16 + low).ok()
}

/// The first byte that is written, itself or as `\xHH`, and what follows it.
fn first_byte(word: &[u8]) -> Option<(u8, &[u8])>
    ensures { IfSome result (λ p. length p.1.now < length word.now) }
{
    match word {
        [b'\\', b'x', high, low, rest @ ..] => Some((hexadecimal(*high, *low)?, rest)),
        [b'\\', ..] => None,
        [byte @ b'!'..=b'~', rest @ ..] => Some((*byte, rest)),
        _ => None,
    }
}

/// Puts the bytes that a word writes at a buffer's start, and says how many they are.
fn read_bytes(word: &[u8], out: &mut [u8]) -> Option<usize>
    ensures { IfSome result (λ n. Fills n out.new) }
{
    let mut n = 0;
    let mut rest = word;
    // a byte is one character or four, so no iterator of std gives them
    while !rest.is_empty() {
        let (byte, after) = first_byte(rest)?;
        *out.get_mut(n)? = byte;
        n += 1;
        rest = after;
    }
    Some(n)
}

impl<'a> Words<'a> {
    /// The words of a text.
    pub fn of(text: &'a str) -> Words<'a> {
        Words {
            left: text.split(' '),
        }
    }

    fn word(&mut self) -> Result<&'a str, BadLine> {
        self.left.next().ok_or(BadLine)
    }

    /// No further word.
    pub fn end(&mut self) -> Result<(), BadLine> {
        match self.left.next() {
            Some(_) => Err(BadLine),
            None => Ok(()),
        }
    }

    /// A number of a type.
    pub fn number<T: FromStr>(&mut self) -> Result<T, BadLine>
    where
        T::Err: Drop,
    {
        number(self.word()?).ok_or(BadLine)
    }

    /// A list of numbers, put into a buffer.
    pub fn list<'b, T: FromStr + Drop>(&mut self, out: &'b mut [T]) -> Result<&'b mut [T], BadLine>
    where
        T::Err: Drop,
    {
        let n = read_list(self.word()?, out).ok_or(BadLine)?;
        Ok(&mut out[..n])
    }

    /// Bytes, put into a buffer.
    pub fn bytes<'b>(&mut self, out: &'b mut [u8]) -> Result<&'b [u8], BadLine> {
        let n = read_bytes(self.word()?.as_bytes(), out).ok_or(BadLine)?;
        Ok(&out[..n])
    }

    /// As much of a buffer as a number says.
    pub fn lent<'b, T>(&mut self, buffer: &'b mut [T]) -> Result<&'b mut [T], BadLine> {
        let length: usize = self.number()?;
        buffer.get_mut(..length).ok_or(BadLine)
    }

    /// A store as long as a number says, and what is lent past it.
    pub fn store<'b>(&mut self, lent: &'b [u8]) -> Result<(&'b [u8], &'b [u8]), BadLine> {
        let length: usize = self.number()?;
        if MEBIBYTE < length {
            return Err(BadLine);
        }
        lent.split_at_checked(length).ok_or(BadLine)
    }

    /// Scale, factor and zone.
    pub fn series(&mut self) -> Result<Series, BadLine> {
        Ok(Series {
            scale: self.number()?,
            factor: self.number()?,
            zone: self.number()?,
        })
    }

    /// Scale, factor, zone and a card, whose bytes are put into a buffer.
    pub fn card<'b>(&mut self, bytes: &'b mut [u8]) -> Result<Card<'b>, BadLine> {
        let series = self.series()?;
        let bytes = self.bytes(bytes)?;
        Ok(Card { series, bytes })
    }

    /// A tile index, put into the buffer of its form.
    pub fn index<'b>(
        &mut self,
        form: Form,
        list: &'b mut [u32],
        bits: &'b mut [u64],
    ) -> Result<Index<'b>, BadLine> {
        match form {
            Form::List => Ok(Index::List(self.list(list)?)),
            Form::Bits => Ok(Index::Bits(self.list(bits)?)),
        }
    }

    /// A card, a tile index and a count, put into the buffers that are given.
    pub fn stated<'b>(
        &mut self,
        form: Form,
        bytes: &'b mut [u8],
        list: &'b mut [u32],
        bits: &'b mut [u64],
    ) -> Result<Stated<'b>, BadLine> {
        Ok(Stated {
            card: self.card(bytes)?,
            index: self.index(form, list, bits)?,
            count: self.number()?,
        })
    }

    /// A pixel's row and column.
    pub fn pixel(&mut self) -> Result<Pixel, BadLine> {
        Ok(Pixel {
            row: self.number()?,
            column: self.number()?,
        })
    }

    /// Top, left, height and width.
    pub fn window(&mut self) -> Result<Window, BadLine> {
        Ok(Window {
            top: self.number()?,
            left: self.number()?,
            height: self.number()?,
            width: self.number()?,
        })
    }
}
