ghost use Rattle.std.specs.Prelude.{◌≡◌, ℕ, ◌≤◌, length, Some};
ghost use Rattle.held.specs.Held.{octets_of};
ghost use Rattle.side.specs.Signals.{bearer_of};
ghost use Rattle.dss1_meaning.specs.Dss1.{number_octets};
ghost use Rattle.dss1_reading.specs.Reads.{number_of};

use held::Held;
use side::contents::{Bearer, Number};

/// Bit 8 of an octet after which its group does not go on.
const LAST: u8 = 0x80;
/// The numbering plan of a called number, in the low bits of its first octet.
const PLAN: u8 = 0x01;

/// A bearer capability.
pub(crate) fn bearer_octets(bearer: &Bearer) -> Held<11>
    ensures { octets_of result ≡ bearer_of bearer.now }
{
    Held::of(bearer.as_octets()).unwrap()
}

/// A called number: its type and the numbering plan, then its digits.
pub(crate) fn number_octets(number: &Number) -> Held<21>
    ensures { octets_of result ≡ number_octets (Some (number_of number.now)) }
{
    let kind: Held<21> = Held::of(&[LAST + 16 * number.kind.code() + PLAN]).unwrap();
    kind.then(number.digits.as_octets()).unwrap()
}
