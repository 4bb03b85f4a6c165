//! Prints what a side makes of a message: its reading, or its refusal.
use inspection::Found;
use side::contents::Reading;
use side::kinds::Refusal;
use std::io;
use wording::{INDENT, Page};

/// Prints what a side reads in a message, with what was found in it before.
pub fn show(rt: &HostRuntime, found: Found, read: Result<Reading, Refusal>) -> io::Result<Found> {
    let page = Page { rt, indent: INDENT };
    match read {
        Ok(reading) => {
            page.reading(&reading)?;
            Ok(found)
        }
        Err(refusal) => {
            page.line(refusal)?;
            Ok(Found {
                refused: true,
                ..found
            })
        }
    }
}
