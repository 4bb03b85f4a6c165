//! Reads messages in hex from standard input, one a line, and says what stands in them.
#![tactic(auto)]

mod lines;

use inspection::{Found, Kind};
use std::io;

/// What a line holds.
#[derive(Clone, Copy)]
enum Message {
    Dss1,
    Parameters,
    Line,
}

impl Kind for Message {
    fn of(word: &[u8]) -> Option<Message> {
        match word {
            b"dss1" => Some(Message::Dss1),
            b"parameters" => Some(Message::Parameters),
            b"line" => Some(Message::Line),
            _ => None,
        }
    }

    fn show(self, rt: &HostRuntime, octets: &[u8]) -> io::Result<Found> {
        match self {
            Message::Dss1 => inspection::show_dss1(rt, octets),
            Message::Parameters => inspection::show_parameters(rt, 0, octets),
            Message::Line => lines::show_line(rt, octets),
        }
    }
}

fn main(rt: HostRuntime) -> io::Result<()> {
    let tally = inspection::inspect::<Message>(&rt)?;
    println!(rt; "{tally}, {} error lines", tally.errors)
}
