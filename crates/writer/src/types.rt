ghost use Rattle.std.specs.Prelude.{◌≡◌, Some};
ghost use Rattle.writer.specs.Entries.{entry_of};
ghost use Rattle.writer.specs.Texts.{write_fault_text};

use elements::types::ListElement;
use std::error::Error;
use std::fmt;

/// Why a step of writing is refused; nothing is written then.
#[derive(Clone, Copy, PartialEq, Eq, Debug)]
pub enum WriteFault {
    /// The tag is none that an element of this coding may have.
    NotATag,
    /// The tag is below the one before it; elements stand in ascending order.
    OutOfOrder,
    /// More contents than a length octet can tell.
    TooLong,
    /// The buffer ends before what is to be written does.
    NoRoom,
}

/// One entry of a table of elements to be written.
#[derive(Clone, Copy)]
pub enum Item<'a> {
    /// An element: tag and contents.
    Element(u8, &'a [u8]),
    /// An element of one octet.
    Single(u8),
    // Not Option around the entry: a table lists it beside elements, and Some would stand before each of those.
    /// Nothing: an optional element that did not come.
    Absent,
}

impl fmt::Display for WriteFault {
    ghost output = { λ fault. Some (write_fault_text fault) };

    fn fmt<W: fmt::Write>(&self, f: &mut fmt::Formatter<W>) -> fmt::Result {
        f.write_str(match self {
            WriteFault::NotATag => "a tag that no element of this coding may have",
            WriteFault::OutOfOrder => "the tags are not in ascending order",
            WriteFault::TooLong => "more contents than a length octet can tell",
            WriteFault::NoRoom => "no room in the buffer",
        })
    }
}

impl Error for WriteFault {}

/// An element that was read, as an entry to be written.
impl<'a> From<ListElement<'a>> for Item<'a> {
    ghost from_gives = { λ element item. item ≡ entry_of element };

    fn from(element: ListElement<'a>) -> Item<'a> {
        match element.contents {
            Some(contents) => Item::Element(element.tag, contents),
            None => Item::Single(element.tag),
        }
    }
}
