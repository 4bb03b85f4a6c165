ghost use Rattle.std.specs.Prelude.{◌≡◌, ℕ, ◌<◌, ◌≤◌, ◌&&◌, if◌then◌else◌, Some, None, nat_lt};
ghost use Rattle.std.specs.Option.{option_map};

use super::{Leg, MOST_LEGS};

impl Leg {
    /// The leg with a number, if there can be one.
    pub fn new(number: usize) -> Option<Leg>
        ensures { option_map (λ l. l.number) result ≡ (if nat_lt number 64 then Some number else None) }
    {
        match u8::try_from(number) {
            Ok(octet) if number < MOST_LEGS => Some(Leg { number: octet }),
            _ => None,
        }
    }

    /// The leg with a number, if a side with so many legs has it.
    pub fn among(number: usize, legs: usize) -> Option<Leg>
        ensures { option_map (λ l. l.number) result ≡ (if nat_lt number legs && nat_lt number 64 then Some number else None) }
    {
        if number < legs {
            Leg::new(number)
        } else {
            None
        }
    }

    /// Its number as a message holds it.
    pub fn octet(self) -> u8
        ensures is { result ≡ self.number }
        ensures few { result < 64 }
    {
        self.number
    }

    /// Its number.
    pub fn number(self) -> usize
        ensures is { result ≡ self.number }
        ensures few { result < 64 }
    {
        usize::from(self.number)
    }
}
