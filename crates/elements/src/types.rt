ghost use Rattle.std.specs.Prelude.{◌≡◌, Some};
ghost use Rattle.elements.specs.Faults.{fault_place, fault_behind, fault_text};

use std::error::Error;
use std::fmt;

/// How a list of elements ends, and which of its tags stand alone.
#[derive(Clone, Copy, PartialEq, Eq, Debug)]
pub struct EndRule {
    /// The tag that ends the list, or none: then the list ends with its octets.
    pub end: Option<u8>,
    /// Whether a tag of 80 hex or more is a whole element of one octet.
    pub singles: bool,
}

/// What stands at one place of a list.
#[derive(Clone, Copy, PartialEq, Eq, Debug)]
pub enum Seen {
    /// No octet: the place is past the last one.
    Nothing,
    /// The tag that ends the list.
    End,
    /// An element of one octet.
    Single,
    /// An element with so many octets of contents, all of them there.
    Element(usize),
    /// An element whose length or contents break off.
    Broken,
}

/// A whole element of a list.
#[derive(Clone, Copy)]
pub struct ListElement<'a> {
    /// The place of its tag.
    pub place: usize,
    /// Its tag.
    pub tag: u8,
    /// Its contents; none, where the tag is the whole element.
    pub contents: Option<&'a [u8]>,
}

/// Why a list is not whole, with the place.
#[derive(Clone, Copy, PartialEq, Eq, Debug)]
pub enum ListFault {
    /// An element breaks off; the place is that of its tag.
    BreaksOff(usize),
    /// Every element is whole and the end tag is missing; the place is where it should stand.
    NoEnd(usize),
}

impl ListFault {
    /// The place of the fault.
    pub fn place(self) -> usize
        ensures { result ≡ fault_place self }
    {
        match self {
            ListFault::BreaksOff(place) | ListFault::NoEnd(place) => place,
        }
    }

    /// The same fault where so many octets stand before the list: its place is counted from the first of them.
    pub fn behind(self, start: usize) -> ListFault
        ensures { result ≡ fault_behind start self }
    {
        match self {
            ListFault::BreaksOff(place) => ListFault::BreaksOff(place.saturating_add(start)),
            ListFault::NoEnd(place) => ListFault::NoEnd(place.saturating_add(start)),
        }
    }
}

impl fmt::Display for ListFault {
    ghost output = { λ fault. Some (fault_text fault) };

    fn fmt<W: fmt::Write>(&self, f: &mut fmt::Formatter<W>) -> fmt::Result {
        match self {
            ListFault::BreaksOff(place) => {
                write!(f, "an element breaks off; its tag stands at place {place}")
            }
            ListFault::NoEnd(place) => {
                write!(
                    f,
                    "the end tag is missing; it should stand at place {place}"
                )
            }
        }
    }
}

impl Error for ListFault {}
