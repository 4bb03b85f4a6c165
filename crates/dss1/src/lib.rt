//! DSS 1: the messages of a subscriber's access read and written, and the record of a call place kept.
#![tactic(auto)]

ghost use Rattle.std.specs.Prelude.{◌≡◌};
ghost use Rattle.dss1_meaning.proofs.Laws.{meaning_of_dss1};

mod fields;
pub mod telling;
mod writing;

use side::Signalling;
use side::contents::{Reading, Signal};
use side::kinds::{Phase, Refusal, System};
use side::leg::Leg;
use side::records::Dss1Record;

/// The signalling of a subscriber's digital access.
pub struct Dss1;

impl Signalling for Dss1 {
    type Record = Dss1Record;

    const MOST_LEGS: usize = 64;

    ghost meaning = { meaning_of_dss1 };

    fn leg_limit() -> usize {
        Self::MOST_LEGS
    }

    fn system() -> System {
        System::Dss1
    }

    fn blank() -> Dss1Record {
        Dss1Record {
            phase: Phase::Idle,
            cause: None,
        }
    }

    fn phase(of: Dss1Record) -> Phase {
        of.phase
    }

    fn callable(leg: Leg) -> bool {
        telling::callable(leg)
    }

    fn read(legs: usize, message: &[u8]) -> Result<Reading, Refusal> {
        dss1_reading::reading::read(legs, message)
    }

    fn take(
        before: Dss1Record,
        reading: &Reading,
        reply: &mut [u8],
    ) -> Result<(Dss1Record, usize), Refusal> {
        telling::take(before, reading, reply)
    }

    fn tell(
        before: Dss1Record,
        leg: Leg,
        signal: &Signal,
        message: &mut [u8],
    ) -> Result<(Dss1Record, usize), Refusal> {
        telling::tell(before, leg, signal, message)
    }
}
