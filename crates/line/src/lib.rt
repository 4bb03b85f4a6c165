//! Analogue lines: their messages read and written, and the record of a line kept.
#![tactic(auto)]

ghost use Rattle.std.specs.Prelude.{◌≡◌};
ghost use Rattle.line_meaning.proofs.Laws.{meaning_of_lines};

pub mod reading;
pub mod telling;

use side::Signalling;
use side::contents::{Reading, Signal};
use side::kinds::{Phase, Refusal, System};
use side::leg::Leg;
use side::records::LineRecord;

/// The signalling of analogue lines.
pub struct Line;

impl Signalling for Line {
    type Record = LineRecord;

    const MOST_LEGS: usize = 32;

    ghost meaning = { meaning_of_lines };

    fn leg_limit() -> usize {
        Self::MOST_LEGS
    }

    fn system() -> System {
        System::Line
    }

    fn blank() -> LineRecord {
        LineRecord {
            phase: Phase::Idle,
            dialled: None,
        }
    }

    fn phase(of: LineRecord) -> Phase {
        of.phase
    }

    fn callable(_leg: Leg) -> bool {
        true
    }

    fn read(legs: usize, message: &[u8]) -> Result<Reading, Refusal> {
        reading::read(legs, message)
    }

    fn take(
        before: LineRecord,
        reading: &Reading,
        reply: &mut [u8],
    ) -> Result<(LineRecord, usize), Refusal> {
        telling::take(before, reading, reply)
    }

    fn tell(
        before: LineRecord,
        leg: Leg,
        signal: &Signal,
        message: &mut [u8],
    ) -> Result<(LineRecord, usize), Refusal> {
        telling::tell(before, leg, signal, message)
    }
}
