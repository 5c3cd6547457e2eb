//! Why a line is not answered.
use std::io;

/// The line is no question, or a word is not of its kind.
#[derive(Clone, Copy, Debug)]
pub struct BadLine;

/// A line that is no question, or an answer that standard output did not take.
#[derive(Debug, Drop)]
pub enum Fault {
    BadLine,
    Output(io::Error),
}

impl From<BadLine> for Fault {
    fn from(_bad: BadLine) -> Fault {
        Fault::BadLine
    }
}

impl From<io::Error> for Fault {
    fn from(e: io::Error) -> Fault {
        Fault::Output(e)
    }
}
