//! What the contents of an element say, in words.
use digits::{DigitFault, Digits};
use elements::{Coding, Dss1, Isup};
use std::fmt;
use text::Characters;
use values::{BearerFault, Capability, NumberType};
use wording::names;

/// What the contents of an element say.
#[derive(Clone, Copy)]
pub enum Meaning {
    // A variant, and no Result around the rest: it is printed in the place of a meaning, and nobody hands it on.
    /// Less than the element has to have.
    CutShort,
    /// A number: its type and its digits.
    Number(Result<NumberType, NoType>, Result<Digits, DigitFault>),
    /// A cause.
    Cause(names::LocatedCause),
    /// A progress: location and description.
    Progress(u8, u8),
    /// What a connection has to carry.
    Bearer(Result<Capability, BearerFault>),
}

/// A code that is no type of number.
#[derive(Clone, Copy)]
pub struct NoType(u8);

/// A coding whose elements have names and meanings.
pub trait Described: Coding {
    /// The usual name of a tag.
    fn name(tag: u8) -> &'static str;

    /// What the contents of an element with this tag say, where they are read here.
    fn meaning(tag: u8, contents: &[u8]) -> Option<Meaning>;
}

impl Described for Dss1 {
    fn name(tag: u8) -> &'static str {
        names::element(tag)
    }

    fn meaning(tag: u8, contents: &[u8]) -> Option<Meaning> {
        match tag {
            0x04 => Some(Meaning::Bearer(values::bearer(contents))),
            0x08 => Some(cause(contents)),
            0x1E => Some(progress(contents)),
            0x4C | 0x6C | 0x70 | 0x74 => Some(dialled_number(contents)),
            _ => None,
        }
    }
}

impl Described for Isup {
    fn name(tag: u8) -> &'static str {
        names::parameter(tag)
    }

    fn meaning(tag: u8, contents: &[u8]) -> Option<Meaning> {
        match tag {
            0x0A | 0x0B | 0x21 | 0x28 => Some(packed_number(contents)),
            0x12 => Some(cause(contents)),
            0x1D => Some(Meaning::Bearer(values::bearer(contents))),
            _ => None,
        }
    }
}

// Two functions: they share no more than the call, and differ in the reader and in what it is called.
/// A cause, of either coding.
fn cause(contents: &[u8]) -> Meaning {
    let read = values::cause(contents);
    read.map_or(
        Meaning::CutShort,
        |(location, value)| Meaning::Cause(names::LocatedCause { location, value }),
    )
}

/// A progress indicator.
fn progress(contents: &[u8]) -> Meaning {
    let read = values::progress(contents);
    read.map_or(
        Meaning::CutShort,
        |(location, description)| Meaning::Progress(location, description),
    )
}

/// A number whose digits are characters: an octet with its type, one more where bit 8 of that is 0, then the digits.
fn dialled_number(contents: &[u8]) -> Meaning {
    match contents {
        [first, _screening, text @ ..] if *first < 0x80 => {
            Meaning::Number(type_in(*first), Digits::read(text))
        }
        [first, text @ ..] if *first >= 0x80 => Meaning::Number(
            type_in(*first),
            Digits::read(text),
        ),
        _ => Meaning::CutShort,
    }
}

/// The type of number in the first octet.
fn type_in(first: u8) -> Result<NumberType, NoType> {
    values::number_type(first).ok_or(NoType(first / 16 % 8))
}

/// A number whose digits are packed two to an octet: odd count and nature of address, plan and presentation, digits.
fn packed_number(contents: &[u8]) -> Meaning {
    let [first, _plan, packed @ ..] = contents else {
        return Meaning::CutShort;
    };
    let nature = *first % 128;
    let kind = NumberType::from_nature(nature).ok_or(NoType(nature));
    Meaning::Number(kind, digits::unpack(packed, *first >= 0x80))
}

impl fmt::Display for Meaning {
    fn fmt<W: fmt::Write>(&self, f: &mut fmt::Formatter<W>) -> fmt::Result {
        match *self {
            Meaning::CutShort => f.write_str("too short for what it is"),
            Meaning::Number(kind, digits) => {
                match kind {
                    Ok(kind) => write!(f, "{kind}")?,
                    Err(none) => write!(f, "{none}")?,
                }
                match digits {
                    Ok(digits) => write!(f, ", digits {}", Characters(digits.as_octets())),
                    Err(fault) => write!(f, "; outside the rule: {}", FromOne(fault)),
                }
            }
            Meaning::Cause(cause) => write!(f, "{cause}"),
            Meaning::Progress(location, description) => {
                let words = names::progress(description);
                let from = names::location(location);
                write!(
                    f,
                    "progress {description}, {words}; location {location}, {from}"
                )
            }
            Meaning::Bearer(Ok(capability)) => write!(f, "{capability}"),
            Meaning::Bearer(Err(fault)) => write!(f, "outside the rule: {fault}"),
        }
    }
}

impl fmt::Display for NoType {
    fn fmt<W: fmt::Write>(&self, f: &mut fmt::Formatter<W>) -> fmt::Result {
        write!(f, "number of no known type, code {}", self.0)
    }
}

/// Why a number has no digits, where a stray one is counted from 1.
#[derive(Clone, Copy)]
struct FromOne(DigitFault);

impl fmt::Display for FromOne {
    fn fmt<W: fmt::Write>(&self, f: &mut fmt::Formatter<W>) -> fmt::Result {
        match self.0 {
            DigitFault::NotADigit(at) => write!(f, "digit {} is none", at.saturating_add(1)),
            fault => write!(f, "{fault}"),
        }
    }
}
