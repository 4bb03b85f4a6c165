//! The book of legs: a side over records that the host lends.
#![tactic(auto)]

ghost use Rattle.std.specs.Prelude.{◌≡◌, ℕ, ◌<◌, ◌≤◌, min, ◌++◌, length, drop, replicate, if◌then◌else◌, Some, None, nat_lt, slice_index_or, slice_set};
ghost use Rattle.book.specs.Legs.{opened, legs_of, legs_few};

use side::contents::{Reading, Signal};
use side::kinds::{Phase, Refusal};
use side::leg::Leg;
use side::refusing::no_row;
use side::{Side, Signalling};

/// The legs of one side: the first records that the host lends, up to the system's most.
#[derive(Drop)]
pub struct LegBook<'a, S: Signalling> {
    records: &'a mut [S::Record],
}

// The legs are named by a definition: a model of the book would hide the loan, of which a host's clauses speak.
impl<'a, S: Signalling> LegBook<'a, S> {
    /// Opens a side over records: as many legs as there are, up to the most, all blank; the others stay as they are.
    pub fn open(records: &'a mut [S::Record]) -> LegBook<'a, S>
        ensures records { result.records.now ≡ opened S.meaning.most S.meaning.blank records.old }
        ensures lender { result.records.ghost_name ≡ records.entry.ghost_name }
    {
        let n = S::leg_limit().min(records.len());
        records[..n].fill_with(|| S::blank());
        LegBook { records }
    }

    /// The records of the legs that are there.
    fn held(&self) -> &[S::Record]
        ensures { result.now ≡ legs_of S.meaning.most self.now.records.now }
    {
        let n = S::leg_limit().min(self.records.len());
        &self.records[..n]
    }

    /// The record of a leg, if it is there.
    fn get(&self, leg: Leg) -> Option<S::Record>
        ensures { let legs = legs_of S.meaning.most self.now.records.now in result ≡ (if nat_lt leg.number (length legs) then Some (slice_index_or legs leg.number S.meaning.blank) else None) }
    {
        self.held().get(leg.number()).copied()
    }

    /// Writes a leg's record whole in its place.
    fn put(&mut self, leg: Leg, next: S::Record)
        requires { leg.number < length (legs_of S.meaning.most self.old.records.now) }
        ensures legs { legs_of S.meaning.most self.new.records.now ≡ slice_set (legs_of S.meaning.most self.old.records.now) leg.number next }
        ensures rest { drop S.meaning.most self.new.records.now ≡ drop S.meaning.most self.old.records.now }
        ensures lender { self.new.records.ghost_name ≡ self.old.records.ghost_name }
    {
        let n = leg.number();
        self.records[n] = next;
    }
}

impl<'a, S: Signalling> Side for LegBook<'a, S> {
    type Record = S::Record;

    const MOST_LEGS: usize = S::MOST_LEGS;

    ghost meaning = { S.meaning };

    ghost records = { λ s. legs_of S.meaning.most s.records.now };

    ghost beyond = { λ s. drop S.meaning.most s.records.now };

    ghost few = { λ s. legs_few S.meaning.most s.records.now };

    ghost lender = { λ s. s.records.ghost_name };

    fn legs(&self) -> usize {
        self.held().len()
    }

    fn callable(&self, leg: Leg) -> bool {
        leg.number() < self.legs() && S::callable(leg)
    }

    fn phase(&self, leg: Leg) -> Option<Phase> {
        self.get(leg).map(|record| S::phase(record))
    }

    fn read(&self, message: &[u8]) -> Result<Reading, Refusal> {
        S::read(self.legs(), message)
    }

    // Not one with `tell`: it would take the system's call as a closure, and be as long as the two.
    fn take(&mut self, reading: &Reading, reply: &mut [u8]) -> Result<usize, Refusal> {
        let record = self
            .get(reading.leg)
            .ok_or(no_row(S::system(), reply.len()))?;
        let (next, n) = S::take(record, reading, reply)?;
        self.put(reading.leg, next);
        Ok(n)
    }

    fn tell(&mut self, leg: Leg, signal: &Signal, message: &mut [u8]) -> Result<usize, Refusal> {
        let record = self.get(leg).ok_or(no_row(S::system(), message.len()))?;
        let (next, n) = S::tell(record, leg, signal, message)?;
        self.put(leg, next);
        Ok(n)
    }
}
