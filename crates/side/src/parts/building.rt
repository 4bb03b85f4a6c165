ghost use Rattle.std.specs.Prelude.{◌≡◌, ℕ, ◌+◌, ◌<◌, ◌≤◌, [], length, if◌then◌else◌, Some, None, IfOk, MatchResult, nat_lt};
ghost use Rattle.writer.specs.Written.{Adds};
ghost use Rattle.side.specs.Limits.{cost};
ghost use Rattle.side.specs.Contents.{cut, five, parts_of, calling_of, called_of, low_of, high_of, user_of, came, parts_fault};

use super::{Lengths, MOST_PARTS, MOST_USER_USER, Parts};
use crate::kinds::PartsFault;

/// The contents that came; what did not come is empty.
fn came(part: Option<&[u8]>) -> &[u8]
    ensures { result.now ≡ came part.entry }
{
    part.unwrap_or(&[])
}

/// How many octets a part takes in a message; anything above the most is one more than the most.
fn cost_of(n: usize) -> usize
    ensures { result ≡ (if nat_lt 200 n then 201 else cost n) }
{
    match n {
        0 => 0,
        1..=MOST_PARTS => n + 2,
        _ => MOST_PARTS + 1,
    }
}

/// Contents behind those that stand already.
fn append(octets: &mut [u8], at: usize, contents: &[u8]) -> usize
    requires { at + length contents.now ≤ length octets.old }
    ensures { Adds contents.now at octets.old result octets.new }
{
    let end = at + contents.len();
    octets[at..end].copy_from_slice(contents);
    end
}

impl Lengths {
    /// These lengths, if parts of so many octets are carried.
    fn new(
        calling: usize,
        called: usize,
        low: usize,
        high: usize,
        user: usize,
    ) -> Result<Lengths, PartsFault>
        ensures fault { MatchResult result (λ _. parts_fault calling called low high user ≡ None) (λ e. parts_fault calling called low high user ≡ Some e) }
        ensures same { IfOk result (λ l. (l.calling ≡ calling) × (l.called ≡ called) × (l.low ≡ low) × (l.high ≡ high) × (l.user ≡ user)) }
    {
        let total = cost_of(calling)
            + cost_of(called)
            + cost_of(low)
            + cost_of(high)
            + cost_of(user);
        if total > MOST_PARTS {
            return Err(PartsFault::TotalOver);
        }
        if user > MOST_USER_USER {
            return Err(PartsFault::UserUserOver);
        }
        Ok(Lengths {
            calling,
            called,
            low,
            high,
            user,
        })
    }
}

impl Parts {
    /// No parts.
    pub fn none() -> Parts
        ensures { parts_of result ≡ [] }
    {
        Parts {
            octets: [0; 200],
            lengths: Lengths {
                calling: 0,
                called: 0,
                low: 0,
                high: 0,
                user: 0,
            },
        }
    }

    // Five parameters and no array of them: each is found under a tag of its own, and an array would lose their names.
    /// The parts that came; what came empty counts as not there.
    pub fn new(
        calling: Option<&[u8]>,
        called: Option<&[u8]>,
        low: Option<&[u8]>,
        high: Option<&[u8]>,
        user: Option<&[u8]>,
    ) -> Result<Parts, PartsFault>
        ensures { MatchResult result (λ p. (parts_fault (length (came calling.entry)) (length (came called.entry)) (length (came low.entry)) (length (came high.entry)) (length (came user.entry)) ≡ None) × (parts_of p ≡ five (came calling.entry) (came called.entry) (came low.entry) (came high.entry) (came user.entry))) (λ e. parts_fault (length (came calling.entry)) (length (came called.entry)) (length (came low.entry)) (length (came high.entry)) (length (came user.entry)) ≡ Some e) }
    {
        let calling = came(calling);
        let called = came(called);
        let low = came(low);
        let high = came(high);
        let user = came(user);
        let lengths = Lengths::new(
            calling.len(),
            called.len(),
            low.len(),
            high.len(),
            user.len(),
        )?;
        let mut octets = [0; 200];
        let a = append(&mut octets, 0, calling);
        let b = append(&mut octets, a, called);
        let c = append(&mut octets, b, low);
        let d = append(&mut octets, c, high);
        append(&mut octets, d, user);
        Ok(Parts { octets, lengths })
    }

    /// So many octets from a place on.
    fn cut(&self, start: usize, n: usize) -> &[u8]
        requires { start + n ≤ 200 }
        ensures { result.now ≡ cut start n self.now.octets }
    {
        &self.octets[start..start + n]
    }

    /// The contents of the calling party's subaddress.
    pub fn calling(&self) -> &[u8]
        ensures { result.now ≡ calling_of self.now }
    {
        self.cut(0, self.lengths.calling)
    }

    /// The contents of the called party's subaddress.
    pub fn called(&self) -> &[u8]
        ensures { result.now ≡ called_of self.now }
    {
        self.cut(self.lengths.calling, self.lengths.called)
    }

    /// The contents of the low layer compatibility.
    pub fn low(&self) -> &[u8]
        ensures { result.now ≡ low_of self.now }
    {
        let lengths = self.lengths;
        let start = lengths.calling + lengths.called;
        self.cut(start, lengths.low)
    }

    /// The contents of the high layer compatibility.
    pub fn high(&self) -> &[u8]
        ensures { result.now ≡ high_of self.now }
    {
        let lengths = self.lengths;
        let start = lengths.calling + lengths.called + lengths.low;
        self.cut(start, lengths.high)
    }

    /// The contents of user-user.
    pub fn user_user(&self) -> &[u8]
        ensures { result.now ≡ user_of self.now }
    {
        let lengths = self.lengths;
        let start = lengths.calling + lengths.called + lengths.low + lengths.high;
        self.cut(start, lengths.user)
    }

    /// The same without user-user.
    pub fn without_user_user(self) -> Parts
        ensures { parts_of result ≡ five (calling_of self) (called_of self) (low_of self) (high_of self) [] }
    {
        let Parts { octets, lengths } = self;
        Parts {
            octets,
            // Written out: the toolchain takes no `..` in a literal of a struct with ghost fields.
            lengths: Lengths {
                calling: lengths.calling,
                called: lengths.called,
                low: lengths.low,
                high: lengths.high,
                user: 0,
            },
        }
    }
}
