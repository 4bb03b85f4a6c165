//! What is found in messages, and what is counted of lines.
use crate::lines::{inspect, inspect_text};
use crate::report::{show_dss1, show_field, show_parameters};
use crate::types::{Found, Kind, Tally};
use std::io;
use std::test::Fail;

/// A setup with a bearer capability and a display, the second cut short.
const CUT: [u8; 11] = [
    0x08, 0x01, 0x11, 0x05, 0x04, 0x03, 0x80, 0x90, 0xA3, 0x28, 0x05,
];

#[test]
fn dss1_messages(rt: HostRuntime) -> Result<(), Fail> {
    let whole = Found {
        elements: 1,
        same: true,
        ..Found::default()
    };
    assert_eq!(rt; show_dss1(&rt, &CUT[0..9])?, whole);
    let cut = Found {
        broken: true,
        ..whole
    };
    assert_eq!(rt; show_dss1(&rt, &CUT)?, cut);
    let headless = Found {
        broken: true,
        ..Found::default()
    };
    assert_eq!(rt; show_dss1(&rt, &CUT[0..3])?, headless);
    Ok(())
}

/// An access transport that holds a subaddress, and a cause.
const PARAMETERS: [u8; 10] = [0x03, 0x03, 0x6D, 0x01, 0x50, 0x12, 0x02, 0x80, 0x90, 0x00];

#[test]
fn parameters(rt: HostRuntime) -> Result<(), Fail> {
    let whole = Found {
        elements: 3,
        same: true,
        ..Found::default()
    };
    assert_eq!(rt; show_parameters(&rt, 0, &PARAMETERS)?, whole);
    let endless = Found {
        broken: true,
        ..whole
    };
    assert_eq!(rt; show_parameters(&rt, 7, &PARAMETERS[0..9])?, endless);
    show_field(&rt, 12, "Cause", 0x12, &[0x80, 0x90])?;
    Ok(())
}

/// The one word that these tests know.
#[derive(Clone, Copy)]
struct Dss1;

impl Kind for Dss1 {
    fn of(word: &[u8]) -> Option<Dss1> {
        match word {
            b"dss1" => Some(Dss1),
            _ => None,
        }
    }

    fn show(self, rt: &HostRuntime, octets: &[u8]) -> io::Result<Found> {
        show_dss1(rt, octets)
    }
}

#[test]
fn lines_are_counted(rt: HostRuntime) -> Result<(), Fail> {
    let text = b"# a call\n\ndss1 0801110504 03 8090A3 # speech\ndss1 08\r\nisup 00\n dss1 08 0";
    let wanted = Tally {
        messages: 2,
        elements: 1,
        broken: 1,
        same: 1,
        refused: 0,
        errors: 2,
    };
    assert_eq!(rt; inspect_text::<Dss1>(&rt, text)?, wanted);
    Ok(())
}

/// No test has a standard input.
#[test]
fn nothing_is_counted(rt: HostRuntime) -> Result<(), Fail> {
    assert_eq!(rt; inspect::<Dss1>(&rt)?, Tally::default());
    Ok(())
}
