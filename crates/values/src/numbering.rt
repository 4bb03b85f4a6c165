ghost use Rattle.std.specs.Prelude.{◌≡◌, ◌+◌, ◌*◌, ◌/◌, ◌%◌, Some};
ghost use Rattle.values.specs.Numbers.{type_of, code_of, type_of_nature, nature_of};

use crate::types::NumberType;

// By name: a `TryFrom<u8>` would not say which of two codes it reads, this one or the nature of address below.
/// The type of number in the first octet of a called number: bits 7 to 5.
pub fn number_type(octet: u8) -> Option<NumberType>
    ensures { result ≡ type_of (octet / 16 % 8) }
{
    match octet / 16 % 8 {
        0 => Some(NumberType::Unknown),
        1 => Some(NumberType::International),
        2 => Some(NumberType::National),
        4 => Some(NumberType::Subscriber),
        _ => None,
    }
}

impl NumberType {
    /// The code of this type in a called number's first octet.
    pub fn code(self) -> u8
        ensures is { result ≡ code_of self }
        ensures back { type_of ((128 + 16 * result + 1) / 16 % 8) ≡ Some self }
    {
        self as u8
    }

    // By name: a `TryFrom<u8>` would not say which of the two codes, of the type or of the nature, it reads.

    /// The type that a nature of address stands for.
    pub fn from_nature(nature: u8) -> Option<NumberType>
        ensures { result ≡ type_of_nature nature }
    {
        match nature {
            1 => Some(NumberType::Subscriber),
            2 => Some(NumberType::Unknown),
            3 => Some(NumberType::National),
            4 => Some(NumberType::International),
            _ => None,
        }
    }

    /// The nature of address that stands for this type.
    pub fn nature(self) -> u8
        ensures is { result ≡ nature_of self }
        ensures back { type_of_nature result ≡ Some self }
    {
        match self {
            NumberType::Subscriber => 1,
            NumberType::Unknown => 2,
            NumberType::National => 3,
            NumberType::International => 4,
        }
    }
}
