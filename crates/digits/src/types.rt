use std::error::Error;
use std::fmt;

/// The most digits that a dialled number has.
pub const MOST_DIGITS: usize = 20;

/// Why no dialled number could be read.
#[derive(Clone, Copy, PartialEq, Eq, Debug)]
pub enum DigitFault {
    /// There is not one digit.
    NoDigits,
    /// There are more digits than a dialled number has.
    TooMany,
    /// The first character or signal that is no digit stands at this place, counted from 0.
    NotADigit(usize),
}

/// Why packed digits could not be written.
#[derive(Clone, Copy, PartialEq, Eq, Debug)]
pub enum PackFault {
    /// The buffer is shorter than what has to be written.
    NoRoom,
}

impl fmt::Display for DigitFault {
    fn fmt<W: fmt::Write>(&self, f: &mut fmt::Formatter<W>) -> fmt::Result {
        match self {
            DigitFault::NoDigits => f.write_str("no digits"),
            DigitFault::TooMany => f.write_str("more than 20 digits"),
            DigitFault::NotADigit(at) => write!(f, "no digit at place {at}"),
        }
    }
}

impl Error for DigitFault {}

impl fmt::Display for PackFault {
    fn fmt<W: fmt::Write>(&self, f: &mut fmt::Formatter<W>) -> fmt::Result {
        f.write_str(match self {
            PackFault::NoRoom => "no room for the packed digits",
        })
    }
}

impl Error for PackFault {}
