//! Refusals by a side's legs.
ghost use Rattle.std.specs.Prelude.{◌≡◌, false, Some, None, MatchResult};
ghost use Rattle.side.specs.Meaning.{reason_number};
ghost use Rattle.side.specs.Steps.{row_fault};

use crate::kinds::{Layer, Reason, Refusal, System};

/// The least octets of a buffer: every message fits, with one to spare.
pub const LEAST_BUFFER: usize = 256;

/// The longest message, in octets: one less than the least buffer.
pub const LONGEST: usize = 255;

/// The refusal of a leg that has no row for what is asked, or of a buffer that is too short.
pub fn no_row(system: System, room: usize) -> Refusal
    ensures { Some result ≡ row_fault system room false }
{
    let reason = if room < LEAST_BUFFER {
        Reason::ShortBuffer
    } else {
        Reason::WrongPhase
    };
    Refusal {
        reason,
        place: 0,
        system,
        layer: Layer::Legs,
    }
}

/// Refuses a take or a tell for which the leg has no row, or whose buffer is too short.
pub fn check_row(system: System, room: usize, row: bool) -> Result<(), Refusal>
    ensures { MatchResult result (λ _. row_fault system room row ≡ None) (λ e. row_fault system room row ≡ Some e) }
{
    if row && room >= LEAST_BUFFER {
        Ok(())
    } else {
        Err(no_row(system, room))
    }
}

impl System {
    /// A refusal of a message by this system's rules.
    pub fn refuses(self, reason: Reason, place: usize) -> Refusal
        ensures { result ≡ record { reason = reason; place = place; system = self; layer = Layer.Message } }
    {
        Refusal {
            reason,
            place,
            system: self,
            layer: Layer::Message,
        }
    }
}

impl Reason {
    /// The number by which a refusal is known, 1 to 9.
    pub fn number(self) -> u8
        ensures { result ≡ reason_number self }
    {
        self as u8
    }
}
