//! Prints what a line's message says.
use inspection::Found;
use line::{Line, reading};
use side::Signalling;
use side::contents::{Reading, Signal};
use std::io;
use text::{Characters, Octets};

// Not on a `Page`: this program needs nothing else of `wording`.
/// What a reading says.
fn show_reading(rt: &HostRuntime, reading: &Reading) -> io::Result<()> {
    let leg = reading.leg.number();
    let event = reading.heard;
    let kind = reading.signal.kind();
    println!(rt; "  leg {leg}, event {event:02X}, {kind}")?;
    match reading.signal {
        Signal::Setup(setup) => {
            let number = setup.number.kind;
            let digits = Characters(setup.number.digits.as_octets());
            let bearer = Octets(setup.bearer.as_octets());
            println!(rt; "  {number}, digits {digits}; bearer {bearer}; not from an ISDN")
        }
        _ => Ok(()),
    }
}

/// One message of a line: leg, event, kind and digits, or the refusal.
pub fn show_line(rt: &HostRuntime, octets: &[u8]) -> io::Result<Found> {
    // As many lines as a side can have: a capture does not say how many there are.
    match reading::read(<Line as Signalling>::MOST_LEGS, octets) {
        Ok(reading) => {
            show_reading(rt, &reading)?;
            Ok(Found::default())
        }
        Err(refusal) => {
            println!(rt; "  {refusal}")?;
            Ok(Found {
                broken: true,
                ..Found::default()
            })
        }
    }
}
