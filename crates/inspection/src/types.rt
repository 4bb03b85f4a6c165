//! What a program shows, and what it counts.
ghost use Rattle.std.specs.Prelude.{◌≡◌};
ghost use Rattle.inspection.specs.Tally.{with_message, with_error};

use std::{fmt, io};

/// What a line may hold: the words that a program knows, and what it shows for each.
pub trait Kind: Copy {
    // An Option and no TryFrom: its error could say no more than that the word is none of these.
    /// The kind that a line's first word names.
    fn of(word: &[u8]) -> Option<Self>;

    /// Prints what a message of this kind says.
    fn show(self, rt: &HostRuntime, octets: &[u8]) -> io::Result<Found>;
}

/// What was found in one message.
#[derive(Clone, Copy, PartialEq, Eq, Debug, Default)]
pub struct Found {
    /// Whole elements, the nested ones too.
    pub elements: usize,
    /// Whether the header or a list is broken.
    pub broken: bool,
    /// Whether the whole elements, written again, are the same octets.
    pub same: bool,
    /// Whether the side refuses the message.
    pub refused: bool,
}

/// How much has been seen.
#[derive(Clone, Copy, PartialEq, Eq, Debug, Default)]
pub struct Tally {
    /// Messages, broken ones too.
    pub messages: usize,
    /// Whole elements of all messages.
    pub elements: usize,
    /// Messages that are broken.
    pub broken: usize,
    /// Messages that, written again, are the same octets.
    pub same: usize,
    /// Messages that their side refuses.
    pub refused: usize,
    /// Lines that are not messages.
    pub errors: usize,
}

impl Tally {
    /// Counts a message.
    pub fn message(&mut self, found: Found)
        ensures { self.new ≡ with_message self.old found }
    {
        self.messages = self.messages.saturating_add(1);
        self.elements = self.elements.saturating_add(found.elements);
        self.broken = self.broken.saturating_add(usize::from(found.broken));
        self.same = self.same.saturating_add(usize::from(found.same));
        self.refused = self.refused.saturating_add(usize::from(found.refused));
    }

    /// Counts a line that is not a message.
    pub fn error(&mut self)
        ensures { self.new ≡ with_error self.old }
    {
        self.errors = self.errors.saturating_add(1);
    }
}

/// What was seen in messages; refusals and error lines are for the program to add.
impl fmt::Display for Tally {
    fn fmt<W: fmt::Write>(&self, f: &mut fmt::Formatter<W>) -> fmt::Result {
        let messages = self.messages;
        let elements = self.elements;
        let broken = self.broken;
        let same = self.same;
        write!(
            f,
            "{messages} messages, {elements} elements, {broken} broken, {same} written again the same"
        )
    }
}

/// A count of octets in words.
#[derive(Clone, Copy)]
pub struct Count(pub usize);

impl fmt::Display for Count {
    fn fmt<W: fmt::Write>(&self, f: &mut fmt::Formatter<W>) -> fmt::Result {
        match self.0 {
            1 => f.write_str("1 octet"),
            n => write!(f, "{n} octets"),
        }
    }
}
