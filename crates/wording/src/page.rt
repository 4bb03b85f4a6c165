//! Where words are printed: lines with an indent of their own.
use std::{fmt, io};

/// What stands in front of each line of a message.
pub const INDENT: &str = "  ";

/// Standard output, each of whose lines begins with the same blanks.
#[derive(Clone, Copy)]
pub struct Page<'a> {
    /// The system that prints.
    pub rt: &'a HostRuntime,
    /// What stands in front of each line.
    pub indent: &'a str,
}

impl Page<'_> {
    /// Prints one line.
    pub fn line<T: fmt::Display + Drop>(self, text: T) -> io::Result<()> {
        println!(self.rt; "{}{text}", self.indent)
    }
}
