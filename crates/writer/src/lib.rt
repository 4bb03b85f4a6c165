//! Writes a message from the front of a buffer.
//!
//! A message being written is open, then listing, then closed. Each state is a value of plain numbers
//! that the next step takes away; the buffer is lent anew for each step, since its owner reads and writes it
//! between the steps. Only a closed message has a length.
#![tactic(auto)]

ghost use Rattle.std.specs.Prelude.{◌≡◌, ℕ, ◌+◌, ◌^◌, ◌<◌, ◌≤◌, List, [], ◌∷◌, ◌++◌, length, take, drop, slice_set, IfNone, Some, None, MatchResult};
ghost use Rattle.writer.specs.declared.types.WriteFault.TheVariants.{NoRoom};
ghost use Rattle.writer.specs.Items.{octets_of, written, item_fault, last_of, table_fault, nest_fault};
ghost use Rattle.writer.specs.Written.{element, ending, room_fault, element_fault, single_fault, Step, ListStep};

mod standing;
pub mod types;

use elements::Coding;
use standing::{Standing, reach};
use types::{Item, WriteFault};

/// A message that takes its fixed octets.
pub struct Open {
    at: usize,
}

/// A message that takes the elements of its list.
pub struct Listing<C> {
    at: usize,
    last: u8,
    coding: C,
}

/// A message that is written.
#[derive(Clone, Copy)]
pub struct Closed {
    length: usize,
}

/// Octets at a place, if there is room.
fn put(buf: &mut [u8], at: usize, octets: &[u8]) -> Result<usize, WriteFault>
    ensures { Step (room_fault at (length octets.now) (length buf.old)) octets.now at buf.old buf.new (λ end. end) result }
{
    let end = reach(at, octets.len(), buf.len())?;
    buf[at..end].copy_from_slice(octets);
    Ok(end)
}

/// The head of an element at a place: its tag and its length.
fn put_head(buf: &mut [u8], at: usize, tag: u8, n: usize)
    requires room { at + 2 ≤ length buf.old }
    requires small { n ≤ 255 }
    ensures { buf.new ≡ slice_set (slice_set buf.old at tag) (at + 1) n }
{
    buf[at] = tag;
    buf[at + 1] = n as u8;
}

impl Open {
    /// A message of which nothing is written.
    pub fn begin() -> Open
        ensures { result.at ≡ 0 }
    {
        Open { at: 0 }
    }

    /// Fixed octets.
    pub fn octets(self, buf: &mut [u8], octets: &[u8]) -> Result<Open, WriteFault>
        ensures { Step (room_fault self.at (length octets.now) (length buf.old)) octets.now self.at buf.old buf.new (λ next. next.at) result }
    {
        let Open { at } = self;
        let at = put(buf, at, octets)?;
        Ok(Open { at })
    }

    /// Ends the fixed octets and begins the list.
    pub fn list<C: Coding>(self, coding: C) -> Listing<C>
        ensures { (result.at ≡ self.at) × (result.last ≡ 0) }
    {
        let Open { at } = self;
        Listing {
            at,
            last: 0,
            coding,
        }
    }

    /// Ends a message that has no list.
    pub fn close(self) -> Closed
        ensures { result.length ≡ self.at }
    {
        let Open { at } = self;
        Closed { length: at }
    }
}

impl<C: Coding> Listing<C> {
    /// Where the list stands in a buffer, and its coding.
    fn into_parts(self, buf: &[u8]) -> (Standing, C)
        ensures { result.0 ≡ record { rule = C.rule; last = self.last; at = self.at; size = length buf.now } }
    {
        let Listing { at, last, coding } = self;
        let standing = Standing {
            rule: C::end_rule(),
            last,
            at,
            size: buf.len(),
        };
        (standing, coding)
    }

    /// A list of the coding that stands there.
    fn from_parts(standing: Standing, coding: C) -> Listing<C>
        ensures { (result.at ≡ standing.at) × (result.last ≡ standing.last) }
    {
        Listing {
            at: standing.at,
            last: standing.last,
            coding,
        }
    }

    /// An element; its tag is not below the one before.
    pub fn element(self, buf: &mut [u8], tag: u8, contents: &[u8]) -> Result<Listing<C>, WriteFault>
        ensures { ListStep (element_fault C.rule self.last self.at tag (length contents.now) (length buf.old)) (element tag contents.now) self.at buf.old buf.new (λ next. next.at) (λ next. next.last) tag result }
    {
        let at = self.at;
        let (standing, coding) = self.into_parts(buf);
        let n = contents.len();
        let next = standing.element(tag, n)?;
        put_head(buf, at, tag, n);
        buf[at + 2..at + 2 + n].copy_from_slice(contents);
        Ok(Listing::from_parts(next, coding))
    }

    /// An element of one octet, which may stand anywhere.
    pub fn single(self, buf: &mut [u8], tag: u8) -> Result<Listing<C>, WriteFault>
        ensures { ListStep (single_fault C.rule self.at tag (length buf.old)) (tag ∷ []) self.at buf.old buf.new (λ next. next.at) (λ next. next.last) self.last result }
    {
        let at = self.at;
        let (standing, coding) = self.into_parts(buf);
        let next = standing.single(tag)?;
        put(buf, at, &[tag])?;
        Ok(Listing::from_parts(next, coding))
    }

    /// The place at which the contents of the next element begin, if the buffer reaches so far: a nested
    /// list is written there, into the part of the buffer that starts at that place.
    pub fn inside(&self, buf: &[u8]) -> Result<usize, WriteFault>
        ensures { MatchResult result (λ place. (place ≡ self.now.at + 2) × (place ≤ length buf.now)) (λ e. (e ≡ NoRoom) × (length buf.now < self.now.at + 2)) }
    {
        reach(self.at, 2, buf.len())
    }

    /// An element whose contents, a nested list that is closed, stand in their place already.
    pub fn enclose(self, buf: &mut [u8], tag: u8, nested: Closed) -> Result<Listing<C>, WriteFault>
        ensures { ListStep (element_fault C.rule self.last self.at tag nested.length (length buf.old)) (element tag (take nested.length (drop (self.at + 2) buf.old))) self.at buf.old buf.new (λ next. next.at) (λ next. next.last) tag result }
    {
        let at = self.at;
        let (standing, coding) = self.into_parts(buf);
        let n = nested.length;
        let next = standing.element(tag, n)?;
        put_head(buf, at, tag, n);
        Ok(Listing::from_parts(next, coding))
    }

    /// Ends the list with the end tag of its coding, if it has one.
    pub fn close(self, buf: &mut [u8]) -> Result<Closed, WriteFault>
        ensures { Step (room_fault self.at (length (ending C.rule.end)) (length buf.old)) (ending C.rule.end) self.at buf.old buf.new (λ closed. closed.length) result }
    {
        let (standing, _) = self.into_parts(buf);
        let length = put(buf, standing.at, standing.rule.end.as_slice())?;
        Ok(Closed { length })
    }

    /// One entry of a table.
    fn item(self, buf: &mut [u8], item: Item<'_>) -> Result<Listing<C>, WriteFault>
        ensures { ListStep (item_fault C.rule self.last self.at item.entry (length buf.old)) (octets_of item.entry) self.at buf.old buf.new (λ next. next.at) (λ next. next.last) (last_of self.last item.entry) result }
    {
        match item {
            Item::Element(tag, contents) => self.element(buf, tag, contents),
            Item::Single(tag) => self.single(buf, tag),
            Item::Absent => Ok(self),
        }
    }

    /// A table of elements and the end of the list; all of it, or nothing.
    pub fn close_with(self, buf: &mut [u8], items: &[Item<'_>]) -> Result<Closed, WriteFault>
        ensures { Step (table_fault C.rule self.last self.at items.now (length buf.old)) (written items.now ++ ending C.rule.end) self.at buf.old buf.new (λ closed. closed.length) result }
    {
        let (standing, coding) = self.into_parts(buf);
        standing.table(items)?;
        let mut listing = Listing::from_parts(standing, coding);
        for item in items {
            listing = listing.item(buf, *item)?;
        }
        listing.close(buf)
    }

    /// An element that holds a whole list of another coding, written into the part of the buffer that
    /// starts where the contents begin; all of it, or nothing.
    pub fn nest<I: Coding>(
        self,
        buf: &mut [u8],
        tag: u8,
        coding: I,
        items: &[Item<'_>],
    ) -> Result<Listing<C>, WriteFault>
        ensures { ListStep (nest_fault C.rule I.rule self.last self.at tag items.now (length buf.old)) (element tag (written items.now ++ ending I.rule.end)) self.at buf.old buf.new (λ next. next.at) (λ next. next.last) tag result }
    {
        let (standing, outer) = self.into_parts(buf);
        let start = standing.nest(tag, I::end_rule(), items)?;
        let nested = Open::begin()
            .list(coding)
            .close_with(&mut buf[start..], items)?;
        Listing::from_parts(standing, outer).enclose(buf, tag, nested)
    }

    /// Gives the message up.
    pub fn abandon(self) {
        let Listing {
            at: _,
            last: _,
            coding: _,
        } = self;
    }
}

impl Closed {
    /// How many octets the message has.
    pub fn length(self) -> usize
        ensures { result ≡ self.length }
    {
        self.length
    }
}
