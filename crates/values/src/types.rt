use std::error::Error;
use std::fmt;

/// The fewest octets that a bearer capability has.
pub const LEAST_BEARER: usize = 2;

/// The most octets that a bearer capability has.
pub const MOST_BEARER: usize = 11;

/// What a connection has to carry.
#[derive(Clone, Copy, PartialEq, Eq, Debug)]
pub enum Capability {
    /// Speech, which may be compressed on the way.
    Speech,
    /// Digital information that no one on the way may change.
    Unrestricted,
    /// Audio of 3.1 kHz, as modems and facsimile need it.
    Audio,
}

/// Why no bearer capability could be read.
#[derive(Clone, Copy, PartialEq, Eq, Debug)]
pub enum BearerFault {
    /// There are fewer than two octets.
    TooShort,
    /// There are more than eleven octets.
    TooLong,
    /// The information transfer capability is none that is served here.
    Capability(u8),
}

/// How a called number is to be understood, with the code of each type in the number's first octet.
#[derive(Clone, Copy, PartialEq, Eq, Debug)]
pub enum NumberType {
    /// As it was dialled.
    Unknown = 0,
    /// From the country code on.
    International = 1,
    /// From the area code on.
    National = 2,
    /// The subscriber's own number.
    Subscriber = 4,
}

impl fmt::Display for Capability {
    fn fmt<W: fmt::Write>(&self, f: &mut fmt::Formatter<W>) -> fmt::Result {
        f.write_str(match self {
            Capability::Speech => "speech",
            Capability::Unrestricted => "unrestricted digital information",
            Capability::Audio => "3.1 kHz audio",
        })
    }
}

impl fmt::Display for BearerFault {
    fn fmt<W: fmt::Write>(&self, f: &mut fmt::Formatter<W>) -> fmt::Result {
        match self {
            BearerFault::TooShort => f.write_str("a bearer capability of fewer than 2 octets"),
            BearerFault::TooLong => f.write_str("a bearer capability of more than 11 octets"),
            BearerFault::Capability(code) => write!(
                f,
                "information transfer capability {code} is not served"
            ),
        }
    }
}

impl Error for BearerFault {}

impl fmt::Display for NumberType {
    fn fmt<W: fmt::Write>(&self, f: &mut fmt::Formatter<W>) -> fmt::Result {
        f.write_str(match self {
            NumberType::Unknown => "unknown number",
            NumberType::International => "international number",
            NumberType::National => "national number",
            NumberType::Subscriber => "subscriber number",
        })
    }
}
