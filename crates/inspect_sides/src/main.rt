//! Reads messages in hex from standard input, one a line, and says what stands in them and what a side makes of each.
#![tactic(auto)]

mod trunk;
mod verdict;

use inspection::{Found, Kind};
use line::Line;
use side::Signalling;
use side::leg::MOST_LEGS;
use std::io;

/// What a line holds.
#[derive(Clone, Copy)]
enum Message {
    Dss1,
    Isup,
    Parameters,
    Line,
}

impl Kind for Message {
    fn of(word: &[u8]) -> Option<Message> {
        match word {
            b"dss1" => Some(Message::Dss1),
            b"isup" => Some(Message::Isup),
            b"parameters" => Some(Message::Parameters),
            b"line" => Some(Message::Line),
            _ => None,
        }
    }

    // As many legs as a side can have: a capture does not say how many there are.
    fn show(self, rt: &HostRuntime, octets: &[u8]) -> io::Result<Found> {
        match self {
            Message::Dss1 => {
                let found = inspection::show_dss1(rt, octets)?;
                verdict::show(rt, found, dss1_reading::reading::read(MOST_LEGS, octets))
            }
            Message::Isup => {
                let found = trunk::show_isup(rt, octets)?;
                verdict::show(rt, found, isup_reading::reading::read(MOST_LEGS, octets))
            }
            Message::Parameters => inspection::show_parameters(rt, 0, octets),
            // A message of a line has no elements.
            Message::Line => {
                verdict::show(
                    rt,
                    Found::default(),
                    line::reading::read(<Line as Signalling>::MOST_LEGS, octets),
                )
            }
        }
    }
}

fn main(rt: HostRuntime) -> io::Result<()> {
    let tally = inspection::inspect::<Message>(&rt)?;
    println!(rt;
        "{tally}, {} refused, {} error lines",
        tally.refused, tally.errors
    )
}
