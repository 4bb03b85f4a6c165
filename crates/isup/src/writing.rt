//! Writes a message: fixed octets, pointers, a field, and the optional list with access transport inside it.
ghost use Rattle.std.specs.Prelude.{◌≡◌, ℕ, ◌+◌, ◌<◌, ◌≤◌, [], ◌∷◌, ◌++◌, length, MatchResult};
ghost use Rattle.writer.specs.Written.{Adds};
ghost use Rattle.held.specs.Held.{octets_of};
ghost use Rattle.entries.specs.Entries.{entry_octets, listed};
ghost use Rattle.isup_meaning.specs.Writing.{pointer_to, tail};
ghost use Rattle.isup.specs.Writes.{access_of, list_of, no_access, no_list, message_of, Sent};

use crate::fields::Optional;
use carried::{CALLED, CALLING, HIGH, LOW, PROGRESS};
use elements::{Dss1, Isup as OptionalCoding};
use entries::entry;
use held::Held;
use isup_reading::codes::{ACCESS, BEARER, USER};
use writer::types::WriteFault;
use writer::{Closed, Listing, Open};

// The buffer is lent for each step, as the writer wants it. The clauses below are alike in shape alone: each has its own
// octets and its own room that suffices, and a definition would take all of that as arguments.
/// Octets behind what is written.
pub(crate) fn put(front: Open, out: &mut [u8], octets: &[u8]) -> Result<Open, WriteFault>
    ensures { MatchResult result (λ next. Adds octets.now front.at out.old next.at out.new) (λ _. length out.old < front.at + length octets.now) }
{
    front.octets(out, octets)
}

impl Optional<'_> {
    /// Whether access transport says nothing.
    fn no_access(&self) -> bool
        ensures { result ≡ no_access (octets_of self.now.progress) self.now.parts.now }
    {
        self.progress.as_octets().is_empty()
            && self.parts.calling().is_empty()
            && self.parts.called().is_empty()
            && self.parts.low().is_empty()
            && self.parts.high().is_empty()
    }

    /// Whether the list says nothing.
    fn is_empty(&self) -> bool
        ensures { result ≡ no_list (octets_of self.now.progress) self.now.parts.now self.now.bearer.now }
    {
        self.no_access() && self.bearer.is_empty() && self.parts.user_user().is_empty()
    }

    /// Access transport behind what is written, where it says something: a list of its own, written into the part of
    /// the buffer that starts where its contents begin.
    fn put_access(&self, front: Open, out: &mut [u8]) -> Result<Listing<OptionalCoding>, WriteFault>
        ensures { MatchResult result (λ next. Adds (entry_octets (record { tag = 0x03; contents = listed (access_of (octets_of self.now.progress) self.now.parts.now) })) front.at out.old next.at out.new × (next.last ≤ 3)) (λ _. length out.old < front.at + 206) }
    {
        let listing = front.list(OptionalCoding);
        if self.no_access() {
            return Ok(listing);
        }
        let items = [
            entry(PROGRESS, self.progress.as_octets()),
            entry(CALLING, self.parts.calling()),
            entry(CALLED, self.parts.called()),
            entry(LOW, self.parts.low()),
            entry(HIGH, self.parts.high()),
        ];
        listing.nest(out, ACCESS, Dss1, &items)
    }

    /// The list behind what is written, and its end.
    fn put_list(&self, front: Open, out: &mut [u8]) -> Result<Closed, WriteFault>
        ensures { MatchResult result (λ closed. Adds (list_of self.now ++ (0 ∷ [])) front.at out.old closed.length out.new) (λ _. length out.old < front.at + 230) }
    {
        let listing = self.put_access(front, out)?;
        let items = [
            entry(BEARER, self.bearer),
            entry(USER, self.parts.user_user()),
        ];
        listing.close_with(out, &items)
    }

    /// The octet of the pointer to the list: 00 where it says nothing.
    fn pointer(&self, distance: u8) -> u8
        ensures { result ≡ pointer_to distance (list_of self.now) }
    {
        if self.is_empty() { 0 } else { distance }
    }

    /// The list, where it says something, and the end of the message.
    fn close(&self, front: Open, out: &mut [u8]) -> Result<Closed, WriteFault>
        ensures { MatchResult result (λ closed. Adds (tail (list_of self.now)) front.at out.old closed.length out.new) (λ _. length out.old < front.at + 230) }
    {
        if self.is_empty() {
            return Ok(front.close());
        }
        self.put_list(front, out)
    }
}

/// A whole message: fixed octets, the pointer to the optional list, what stands between them, and the list.
pub(crate) fn write(
    out: &mut [u8],
    fixed: &[u8],
    between: Held<14>,
    optional: &Optional<'_>,
) -> Result<usize, WriteFault>
    requires { length fixed.now ≤ 9 }
    ensures { Sent (message_of fixed.now (octets_of between) (list_of optional.now)) out.old out.new result }
{
    let between = between.as_octets();
    let distance = 1 + between.len() as u8;
    let fixed = put(Open::begin(), out, fixed)?;
    let pointer = put(fixed, out, &[optional.pointer(distance)])?;
    let field = put(pointer, out, between)?;
    let closed = optional.close(field, out)?;
    Ok(closed.length())
}
