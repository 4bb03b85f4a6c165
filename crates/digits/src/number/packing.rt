ghost use Rattle.std.specs.Prelude.{◌≡◌, ℕ, ◌+◌, ◌-◌, ◌*◌, ◌/◌, ◌%◌, ◌<◌, ◌≤◌, List, [], ◌∷◌, length, if◌then◌else◌, Ok, ◌==◌, slice_index};
ghost use Rattle.digits.specs.Dialling.{Number, characters, held_by};
ghost use Rattle.digits.specs.Signals.{ended, packed, signal_at, but_last, unpacked, odd_count, octets_for, Written, PackingIsUndone};

use super::Digits;
use crate::types::{DigitFault, PackFault};

/// The signal F, which stands after the last digit.
const END_OF_DIGITS: u8 = 15;

/// The character that the end signal is read as, past the digits.
const END_CHARACTER: u8 = b'0' + END_OF_DIGITS;

/// The most octets that a dialled number is packed into: 20 digits, the end signal and a spare half.
const MOST_OCTETS: usize = 11;

/// The signals in the halves of an octet, the low half first, as characters.
fn characters_in(octet: u8) -> [u8; 2]
    ensures { result ≡ (octet % 16 + 48) ∷ (octet / 16 + 48) ∷ [] }
{
    [octet % 16 + b'0', octet / 16 + b'0']
}

/// The signals in halves of octets: all of them, or all but the last, where that is spare.
fn without_spare(halves: &[u8], odd: bool) -> &[u8]
    ensures { result.now ≡ (if odd then but_last halves.now else halves.now) }
{
    match halves {
        [signals @ .., _] if odd => signals,
        _ => halves,
    }
}

/// A text without one final character of the end signal.
fn without_end(text: &[u8]) -> &[u8]
    ensures { result.now ≡ (if slice_index text.now (length text.now - 1) == 63 then but_last text.now else text.now) }
{
    match text {
        [digits @ .., END_CHARACTER] => digits,
        _ => text,
    }
}

/// Two signals in one octet, the first in the low half.
fn pair(first: u8, second: u8) -> u8
    requires { (first < 16) × (second < 16) }
    ensures { result ≡ first + 16 * second }
{
    first + 16 * second
}

/// Reads the digits out of packed signals; where `odd`, the last half is spare and may hold anything.
/// One final end signal is left off.
pub fn unpack(octets: &[u8], odd: bool) -> Result<Digits, DigitFault>
    ensures reads { held_by result ≡ unpacked odd octets.now }
    ensures undoes { (d : List ℕ) → Number d → octets.now ≡ packed (ended d) → odd ≡ odd_count (length d + 1) → held_by result ≡ Ok d }
{
    if octets.len() > MOST_OCTETS {
        return Err(DigitFault::TooMany);
    }
    // One by one, and not by a map of an array: that would read eleven octets where one came.
    let mut halves = [[0u8; 2]; MOST_OCTETS];
    for (n, pair) in halves[..octets.len()].iter_mut().enumerate() {
        *pair = characters_in(octets[n]);
    }
    let text = without_spare(&halves.as_flattened()[..2 * octets.len()], odd);
    Digits::read(without_end(text))
}

/// Signals come back from the octets that they are packed into, with or without an end signal among them.
pub fn packing_is_undone()
    ensures { PackingIsUndone }
{}

impl Digits {
    /// The signal at place `k`: a digit's, then the end signal, and after it the spare 0.
    fn signal(&self, k: usize) -> u8
        ensures signal { result ≡ signal_at self.now.count self.now.octets k }
        ensures fits { result < 16 }
    {
        if k < self.count {
            self.octets[k] - b'0'
        } else if k == self.count {
            END_OF_DIGITS
        } else {
            0
        }
    }

    /// Whether the digits and the end signal are an odd count, so that the last half is spare.
    pub fn signals_odd(&self) -> bool
        ensures { result ≡ odd_count (length (characters self.now) + 1) }
    {
        self.count % 2 == 0
    }

    /// How many octets the digits and the end signal are packed into.
    pub fn packed_len(&self) -> usize
        ensures octets { result ≡ octets_for (length (characters self.now)) }
        ensures whole { result ≡ length (packed (ended (characters self.now))) }
        ensures most { result ≤ 11 }
    {
        self.count / 2 + 1
    }

    /// Packs the digits and the end signal into the front of `out`, and answers how many octets that took.
    pub fn pack(&self, out: &mut [u8]) -> Result<usize, PackFault>
        ensures { Written (packed (ended (characters self.now))) out.old result out.new }
    {
        let needed = self.packed_len();
        if out.len() < needed {
            return Err(PackFault::NoRoom);
        }
        for (n, octet) in out[..needed].iter_mut().enumerate() {
            *octet = pair(self.signal(2 * n), self.signal(2 * n + 1));
        }
        Ok(needed)
    }
}
