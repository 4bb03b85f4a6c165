//! ISUP trunks: their messages read and written, and the record of a circuit kept.
#![tactic(auto)]

ghost use Rattle.std.specs.Prelude.{◌≡◌};
ghost use Rattle.isup_meaning.proofs.Laws.{meaning_of_isup};

mod fields;
mod messages;
pub mod telling;
mod writing;

use side::Signalling;
use side::contents::{Reading, Signal};
use side::kinds::{Phase, Refusal, System};
use side::leg::Leg;
use side::records::CircuitRecord;

/// The signalling of ISUP trunks.
pub struct Isup;

impl Signalling for Isup {
    type Record = CircuitRecord;

    const MOST_LEGS: usize = 64;

    ghost meaning = { meaning_of_isup };

    fn leg_limit() -> usize {
        Self::MOST_LEGS
    }

    fn system() -> System {
        System::Isup
    }

    fn blank() -> CircuitRecord {
        CircuitRecord {
            phase: Phase::Idle,
            seized: None,
        }
    }

    fn phase(of: CircuitRecord) -> Phase {
        of.phase
    }

    fn callable(_leg: Leg) -> bool {
        true
    }

    fn read(legs: usize, message: &[u8]) -> Result<Reading, Refusal> {
        isup_reading::reading::read(legs, message)
    }

    fn take(
        before: CircuitRecord,
        reading: &Reading,
        reply: &mut [u8],
    ) -> Result<(CircuitRecord, usize), Refusal> {
        telling::take(before, reading, reply)
    }

    fn tell(
        before: CircuitRecord,
        leg: Leg,
        signal: &Signal,
        message: &mut [u8],
    ) -> Result<(CircuitRecord, usize), Refusal> {
        telling::tell(before, leg, signal, message)
    }
}
