ghost use Rattle.std.specs.Prelude.{◌≡◌, ◌+◌, ◌^◌, ◌<◌, ◌≤◌, length, IfSome, OnOk};
ghost use Rattle.text.specs.declared.types.HexFault.TheVariants.{NoMemory};
ghost use Rattle.text.specs.Hex.{hex_value, second, octet_of, Reads};

use crate::types::HexFault;
use crate::words::is_blank;
use std::alloc::{AllocFailed, Global};
use std::error::Error;
use std::fmt;

/// The value of a hex digit, of either case.
pub fn hex_digit(c: char) -> Option<u8>
    ensures value { result ≡ hex_value c }
    ensures small { IfSome result (λ d. d < 16) }
{
    c.to_digit(16).map(|value| value as u8)
}

/// The octet whose first hex digit, worth `high`, stands at a place, and whose second is to come.
fn second_digit(after: &[u8], place: usize, high: u8) -> Result<u8, HexFault>
    requires room { place + 1 < 2 ^ 64 }
    requires small { high < 16 }
    ensures octet { result ≡ second place high after.now }
    ensures within { OnOk result (1 ≤ length after.now) }
{
    match after {
        [] => Err(HexFault::OddDigit(place)),
        [c, ..] if is_blank(*c) => Err(HexFault::OddDigit(place)),
        [c, ..] => {
            let low = hex_digit(char::from(*c)).ok_or(HexFault::NotHex(place + 1))?;
            Ok(16 * high + low)
        }
    }
}

/// The octet whose first hex digit stands at a place, and whose second is to come.
fn octet_of(first: u8, after: &[u8], place: usize) -> Result<u8, HexFault>
    requires room { place + 1 < 2 ^ 64 }
    ensures octet { result ≡ octet_of place first after.now }
    ensures within { OnOk result (1 ≤ length after.now) }
{
    let high = hex_digit(char::from(first)).ok_or(HexFault::NotHex(place))?;
    second_digit(after, place, high)
}

/// Reads octets in hex: two digits each, of either case, with or without blanks between the octets.
pub fn read_octets(text: &[u8], heap: Global) -> Result<Vec<u8>, HexFault>
    ensures { Reads text.now result }
{
    let mut octets = Vec::new(heap);
    let mut rest = text;
    while let Some((first, after)) = rest.split_first() {
        if is_blank(*first) {
            rest = after;
        } else {
            let place = text.len() - rest.len();
            octets.push(octet_of(*first, after, place)?)?;
            rest = &after[1..];
        }
    }
    Ok(octets)
}

impl From<AllocFailed<u8>> for HexFault {
    ghost from_gives = { λ _ fault. fault ≡ NoMemory };

    fn from(_: AllocFailed<u8>) -> HexFault {
        Self::NoMemory
    }
}

impl fmt::Display for HexFault {
    fn fmt<W: fmt::Write>(&self, f: &mut fmt::Formatter<W>) -> fmt::Result {
        match self {
            HexFault::NotHex(place) => write!(f, "no hex digit at place {place}"),
            HexFault::OddDigit(place) => write!(f, "one hex digit alone at place {place}"),
            HexFault::NoMemory => f.write_str("no memory for the octets"),
        }
    }
}

impl Error for HexFault {}

/// Octets to be shown: two hex digits each, in capitals, with one blank between; `-` where there are none.
#[derive(Clone, Copy)]
pub struct Octets<'a>(pub &'a [u8]);

impl fmt::Display for Octets<'_> {
    fn fmt<W: fmt::Write>(&self, f: &mut fmt::Formatter<W>) -> fmt::Result {
        let [first, rest @ ..] = self.0 else {
            return f.write_str("-");
        };
        write!(f, "{first:02X}")?;
        for octet in rest {
            write!(f, " {octet:02X}")?;
        }
        Ok(())
    }
}

/// Octets that are shown as characters; what is no printing character is shown in hex.
#[derive(Clone, Copy)]
pub struct Characters<'a>(pub &'a [u8]);

impl fmt::Display for Characters<'_> {
    fn fmt<W: fmt::Write>(&self, f: &mut fmt::Formatter<W>) -> fmt::Result {
        for octet in self.0 {
            match *octet {
                b' '..=b'~' => write!(f, "{}", char::from(*octet))?,
                other => write!(f, "\\x{other:02X}")?,
            }
        }
        Ok(())
    }
}
