ghost use Rattle.std.specs.Prelude.{◌≡◌, ◌≤◌, ◌==◌, ◌↔◌, IsTrue, length, None};
ghost use Rattle.digits.specs.Dialling.{digit_char, stray_from, dialled, characters, held_by};
ghost use Rattle.std.specs.Cmp.Rules.{comparing};
ghost use Rattle.std.proofs.Common.{rules};
ghost use Rattle.std.specs.Ordering.{on};
ghost use Rattle.std.specs.Cmp.Lexicographic.{pointwise, on_texts_equal};

use super::Digits;
use crate::types::{DigitFault, MOST_DIGITS};

/// Whether a character is a digit, 0 to 9.
pub fn is_digit(c: char) -> bool
    ensures { result ≡ digit_char c }
{
    // A range of characters, and not `is_ascii_digit`: it reads as the rule does.
    match c {
        '0'..='9' => true,
        _ => false,
    }
}

/// The place of the first character of a text that is no digit.
fn first_stray(text: &[u8]) -> Option<usize>
    ensures { result ≡ stray_from 0 text.now }
{
    text.iter().position(|c| !is_digit(char::from(*c)))
}

impl Digits {
    // By name: a TryFrom<&[u8]> would not say whether octets are characters or packed signals.

    /// Reads the digits of an IA5 text: all of it, or the fault says why not.
    pub fn read(text: &[u8]) -> Result<Digits, DigitFault>
        ensures { held_by result ≡ dialled text.now }
    {
        if text.is_empty() {
            return Err(DigitFault::NoDigits);
        }
        if text.len() > MOST_DIGITS {
            return Err(DigitFault::TooMany);
        }
        // By cases: only where there is no stray may the text be held.
        match first_stray(text) {
            Some(at) => Err(DigitFault::NotADigit(at)),
            None => Ok(Digits::hold(text)),
        }
    }

    /// Holds a text that is a dialled number.
    fn hold(text: &[u8]) -> Digits
        requires some { 1 ≤ length text.now }
        requires most { length text.now ≤ 20 }
        requires digits { stray_from 0 text.now ≡ None }
        ensures { characters result ≡ text.now }
    {
        let mut octets = [0u8; MOST_DIGITS];
        octets[..text.len()].copy_from_slice(text);
        Digits {
            octets,
            count: text.len(),
        }
    }

    /// The digits as IA5 characters.
    pub fn as_octets(&self) -> &[u8]
        ensures { result.now ≡ characters self.now }
    {
        &self.octets[..self.count]
    }

    /// How many digits there are.
    pub fn len(&self) -> usize
        ensures { result ≡ length (characters self.now) }
    {
        self.count
    }
}

// By hand: a derived == would compare the padding, and the promise is about the characters.
impl PartialEq for Digits {
    ghost eq = { on characters (pointwise ◌==◌) };

    ghost laws = { Prim.search (comparing, rules) };

    fn eq(&self, other: &Digits) -> bool
        ensures value { result ≡ on characters (pointwise ◌==◌) self.now other.now }
        ensures decides { IsTrue result ↔ (characters self.now ≡ characters other.now) }
    {
        self.as_octets() == other.as_octets()
    }
}
