//! Where a list stands in a buffer, and what may still be written there.

ghost use Rattle.std.specs.Prelude.{◌≡◌, ℕ, ◌+◌, ◌-◌, ◌≤◌, ◌++◌, length};
ghost use Rattle.writer.specs.Items.{octets_of, written, item_fault, last_of, table_fault, nest_fault};
ghost use Rattle.writer.specs.Standings.{Unless};
ghost use Rattle.writer.specs.Written.{ending, room_fault, element_fault, single_fault};

use crate::types::{Item, WriteFault};
use elements::types::EndRule;

/// The place that so many octets more reach, in a buffer of this size.
pub(crate) fn reach(at: usize, more: usize, size: usize) -> Result<usize, WriteFault>
    ensures { Unless (room_fault at more size) (λ end. (end ≡ at + more) × (end ≤ size)) result }
{
    at.checked_add(more)
        .filter(|end| *end <= size)
        .ok_or(WriteFault::NoRoom)
}

/// Where a list stands in a buffer.
#[derive(Clone, Copy)]
pub(crate) struct Standing {
    /// How the list ends, and which tags stand alone in it.
    pub(crate) rule: EndRule,
    /// The tag that the next element's may not be below.
    pub(crate) last: u8,
    /// How far the buffer is written.
    pub(crate) at: usize,
    /// How many octets the buffer has.
    pub(crate) size: usize,
}

impl Standing {
    /// After an element of `n` octets of contents.
    pub(crate) fn element(self, tag: u8, n: usize) -> Result<Standing, WriteFault>
        ensures { Unless (element_fault self.rule self.last self.at tag n self.size) (λ next. (next ≡ record self { last = tag; at = self.at + (2 + n) }) × (n ≤ 255) × (next.at ≤ self.size)) result }
    {
        if self.rule.ends_list(tag) || self.rule.stands_alone(tag) {
            return Err(WriteFault::NotATag);
        }
        if tag < self.last {
            return Err(WriteFault::OutOfOrder);
        }
        if n > 255 {
            return Err(WriteFault::TooLong);
        }
        let at = reach(self.at, 2 + n, self.size)?;
        Ok(Standing {
            last: tag,
            at,
            ..self
        })
    }

    /// After an element of one octet.
    pub(crate) fn single(self, tag: u8) -> Result<Standing, WriteFault>
        ensures { Unless (single_fault self.rule self.at tag self.size) (λ next. (next ≡ record self { at = self.at + 1 }) × (next.at ≤ self.size)) result }
    {
        if self.rule.ends_list(tag) || !self.rule.stands_alone(tag) {
            return Err(WriteFault::NotATag);
        }
        let at = reach(self.at, 1, self.size)?;
        Ok(Standing { at, ..self })
    }

    /// After an entry of a table.
    fn item(self, item: Item<'_>) -> Result<Standing, WriteFault>
        ensures { Unless (item_fault self.rule self.last self.at item.entry self.size) (λ next. next ≡ record self { last = last_of self.last item.entry; at = self.at + length (octets_of item.entry) }) result }
    {
        match item {
            Item::Element(tag, contents) => self.element(tag, contents.len()),
            Item::Single(tag) => self.single(tag),
            Item::Absent => Ok(self),
        }
    }

    /// The place that the end of the list reaches.
    pub(crate) fn end(self) -> Result<usize, WriteFault>
        ensures { Unless (room_fault self.at (length (ending self.rule.end)) self.size) (λ end. end ≡ self.at + length (ending self.rule.end)) result }
    {
        reach(self.at, self.rule.end.as_slice().len(), self.size)
    }

    /// The place that a table of elements and the end of the list reach.
    pub(crate) fn table(self, items: &[Item<'_>]) -> Result<usize, WriteFault>
        ensures { Unless (table_fault self.rule self.last self.at items.now self.size) (λ end. end ≡ self.at + length (written items.now ++ ending self.rule.end)) result }
    {
        let mut standing = self;
        for item in items {
            standing = standing.item(*item)?;
        }
        standing.end()
    }

    /// The place at which a nested list begins, a table with the end rule of its own coding.
    pub(crate) fn nest(
        self,
        tag: u8,
        inner: EndRule,
        items: &[Item<'_>],
    ) -> Result<usize, WriteFault>
        ensures { Unless (nest_fault self.rule inner self.last self.at tag items.now self.size) (λ start. (start ≡ self.at + 2) × (start ≤ self.size)) result }
    {
        let start = reach(self.at, 2, self.size)?;
        let nested = Standing {
            rule: inner,
            last: 0,
            at: 0,
            size: self.size - start,
        };
        let n = nested.table(items)?;
        self.element(tag, n)?;
        Ok(start)
    }
}
