//! What a signalling side is: kinds, phases, contents and refusals, and the two traits by which the
//! exchange and the leg book know a signalling system.
#![tactic(auto)]

ghost use Rattle.std.specs.Prelude.{◌≡◌, ℕ, ◌≤◌, ◌&&◌, List, length, nat_lt};
ghost use Rattle.std.specs.Borrow.{GName};
ghost use Rattle.side.specs.Table.{heard_in, told_in};
ghost use Rattle.side.specs.Signals.{read_as, heard_of, kind_of, contents_of};
ghost use Rattle.side.specs.Meaning.{Meaning};
ghost use Rattle.side.specs.Steps.{row_fault, One, phase_at, take_step, tell_step, Did};

pub mod contents;
pub mod kinds;
pub mod leg;
pub mod parts;
pub mod records;
pub mod refusing;
pub mod table;
pub mod words;

use contents::{Reading, Signal};
use kinds::{Phase, Refusal, System};
use leg::Leg;

/// A signalling system: its messages, and what they leave of a leg's record. It has no memory of its own.
pub trait Signalling {
    /// What is kept of a leg.
    type Record: Copy;

    /// The most legs of a side.
    const MOST_LEGS: usize;

    ghost meaning: { Meaning Self.Record };

    // Written by each system: a law about the constant would ask more of those who give a system.
    /// The most legs, as code that is generic over the system knows them.
    fn leg_limit() -> usize
        ensures { result ≡ meaning.most };

    /// Which system it is, for its refusals.
    fn system() -> System
        ensures { result ≡ meaning.system };

    /// The record of a leg at opening.
    fn blank() -> Self::Record
        ensures { result ≡ meaning.blank };

    /// The phase that a record tells.
    fn phase(of: Self::Record) -> Phase
        ensures { result ≡ meaning.phase_of of };

    /// Whether a leg may be called.
    fn callable(leg: Leg) -> bool
        ensures { result ≡ meaning.callable leg.number };

    /// Reads a message to a side with so many legs.
    fn read(legs: usize, message: &[u8]) -> Result<Reading, Refusal>
        ensures { read_as result ≡ meaning.reads legs message.now };

    /// Takes what was read: the leg's next record, and the length of the reply.
    fn take(
        before: Self::Record,
        reading: &Reading,
        reply: &mut [u8],
    ) -> Result<(Self::Record, usize), Refusal>
        ensures { One (row_fault meaning.system (length reply.old) (heard_in (kind_of reading.now.signal) (meaning.phase_of before))) (meaning.taken reading.now.leg.number before reading.now.heard (kind_of reading.now.signal) (contents_of reading.now.signal)) (meaning.takes reading.now.leg.number (meaning.phase_of before) reading.now.heard (kind_of reading.now.signal) (contents_of reading.now.signal)).octets reply.old reply.new result };

    /// Tells a leg: its next record, and the length of the message.
    fn tell(
        before: Self::Record,
        leg: Leg,
        signal: &Signal,
        message: &mut [u8],
    ) -> Result<(Self::Record, usize), Refusal>
        ensures { One (row_fault meaning.system (length message.old) (told_in (kind_of signal.now) (meaning.callable leg.number) (meaning.phase_of before))) (meaning.told leg.number before (kind_of signal.now) (contents_of signal.now)) (meaning.tells leg.number (meaning.phase_of before) (kind_of signal.now) (contents_of signal.now)).octets message.old message.new result };
}

/// A signalling side with its legs, as the exchange knows it.
pub trait Side {
    /// What the side keeps of a leg.
    type Record: Copy;

    /// The most legs.
    const MOST_LEGS: usize;

    ghost meaning: { Meaning Self.Record };

    ghost records: { Self → List Self.Record };

    ghost beyond: { Self → List Self.Record };

    ghost few: { (s : Self) → length (records s) ≤ meaning.most };

    ghost lender: { Self → GName };

    /// How many legs there are.
    fn legs(&self) -> usize
        ensures { result ≡ length (records self.now) };

    /// Whether a leg is there and may be called.
    fn callable(&self, leg: Leg) -> bool
        ensures { result ≡ (nat_lt leg.number (length (records self.now)) && meaning.callable leg.number) };

    /// The phase of a leg, if it is there.
    fn phase(&self, leg: Leg) -> Option<Phase>
        ensures { result ≡ phase_at meaning (records self.now) leg.number };

    /// Reads a message.
    fn read(&self, message: &[u8]) -> Result<Reading, Refusal>
        ensures { read_as result ≡ meaning.reads (length (records self.now)) message.now };

    /// Takes what was read, and answers the length of the reply.
    fn take(&mut self, reading: &Reading, reply: &mut [u8]) -> Result<usize, Refusal>
        ensures did { Did (take_step meaning (records self.old) (heard_of reading.now) reply.old) result (records self.new) reply.new }
        ensures beyond { beyond self.new ≡ beyond self.old }
        ensures lender { lender self.new ≡ lender self.old };

    /// Tells a leg, and answers the length of the message.
    fn tell(&mut self, leg: Leg, signal: &Signal, message: &mut [u8]) -> Result<usize, Refusal>
        ensures did { Did (tell_step meaning (records self.old) leg.number (kind_of signal.now) (contents_of signal.now) message.old) result (records self.new) message.new }
        ensures beyond { beyond self.new ≡ beyond self.old }
        ensures lender { lender self.new ≡ lender self.old };
}
