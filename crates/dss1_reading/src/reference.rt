//! References and legs: a reference becomes a leg, and a leg a reference, here and nowhere else.
ghost use Rattle.std.specs.Prelude.{◌≡◌, ℕ, ◌%◌, ◌<◌, ◌≤◌, if◌then◌else◌, Some, None};
ghost use Rattle.std.specs.Option.{option_map};
ghost use Rattle.dss1_meaning.specs.Dss1.{exchange, begins, leg_of, named, reference_to};

use dss1_meaning::types::MessageType;
use side::leg::Leg;

/// The flag of a reference: the end that began the call writes it 0.
const FLAG: u8 = 0x80;
/// The largest value of a reference, and how many legs each end begins.
const MOST: u8 = 32;

/// Whether a message begins a call.
fn begins_call(message: MessageType) -> bool
    ensures { result ≡ begins message }
{
    message == MessageType::Setup
}

/// The number of a leg: those that the user began come first.
fn number_of(reference: u8) -> usize
    requires least { 1 ≤ reference % 128 }
    requires most { reference % 128 ≤ 32 }
    ensures is { result ≡ leg_of exchange reference }
    ensures few { result < 64 }
{
    let place = usize::from(reference % FLAG - 1);
    if reference >= FLAG {
        place + usize::from(MOST)
    } else {
        place
    }
}

/// The leg that a reference names in a message to the exchange, if a side with so many legs has it.
pub fn leg_of(reference: u8, message: MessageType, legs: usize) -> Option<Leg>
    ensures { option_map (λ l. l.number) result ≡ (if named exchange legs message reference then Some (leg_of exchange reference) else None) }
{
    let value = reference % FLAG;
    if !(1..=MOST).contains(&value) || begins_call(message) && reference >= FLAG {
        return None;
    }
    Leg::among(number_of(reference), legs)
}

/// The reference that is written to a leg: its flag is the opposite of the one that is heard from it.
pub fn reference_to(leg: Leg) -> u8
    ensures { result ≡ reference_to leg.number }
{
    let number = leg.octet();
    if number < MOST {
        number + 1 + FLAG
    } else {
        number - MOST + 1
    }
}
