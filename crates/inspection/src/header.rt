//! The header of a DSS 1 message: protocol discriminator, reference and type.
ghost use Rattle.std.specs.Result.{MatchResult};
ghost use Rattle.inspection.specs.Header.{Headed, Headless};

use std::fmt;
use wording::names;

/// A DSS 1 message taken apart.
#[derive(Clone, Copy)]
pub struct Message<'a> {
    /// The call's reference, seven bits.
    pub reference: u8,
    /// Whether the message is sent to the side that began the call.
    pub to_origin: bool,
    // An octet: a capture may hold any, and one that is no type is shown too.
    /// The code of its type.
    pub kind: u8,
    /// The four octets of the header.
    pub header: &'a [u8],
    /// The octets of its elements.
    pub list: &'a [u8],
}

/// Why a message has no header.
#[derive(Clone, Copy)]
pub enum HeaderFault {
    // The octet itself in this fault and the next: a capture may hold any.
    /// The first octet is not 08.
    NotDss1(u8),
    /// The second octet is not 01, so that the reference has not one octet.
    ReferenceLength(u8),
    /// The octets end before the header does; the place is where the next one should stand.
    BreaksOff(usize),
}

impl<'a> Message<'a> {
    /// Takes the header off a message: 08, 01, the reference with its flag, the type.
    pub fn read(octets: &'a [u8]) -> Result<Message<'a>, HeaderFault>
        ensures { MatchResult result (λ m. Headed octets.now m.reference m.to_origin m.kind m.header.now m.list.now) (λ e. Headless octets.now e) }
    {
        match octets {
            [first, ..] if *first != 0x08 => Err(HeaderFault::NotDss1(*first)),
            [_, length, ..] if *length != 0x01 => Err(HeaderFault::ReferenceLength(*length)),
            [_, _, reference, kind, list @ ..] => Ok(Message {
                reference: *reference % 128,
                to_origin: *reference >= 0x80,
                kind: *kind,
                header: &octets[..4],
                list,
            }),
            _ => Err(HeaderFault::BreaksOff(octets.len())),
        }
    }
}

impl fmt::Display for Message<'_> {
    fn fmt<W: fmt::Write>(&self, f: &mut fmt::Formatter<W>) -> fmt::Result {
        let name = names::message_type(self.kind);
        let reference = self.reference;
        let side = if self.to_origin { "to" } else { "by" };
        write!(
            f,
            "{name}, reference {reference}, sent {side} the side that began the call"
        )
    }
}

impl fmt::Display for HeaderFault {
    fn fmt<W: fmt::Write>(&self, f: &mut fmt::Formatter<W>) -> fmt::Result {
        match *self {
            HeaderFault::NotDss1(octet) => write!(
                f,
                "{octet:02X} at place 0, where 08 should stand"
            ),
            HeaderFault::ReferenceLength(octet) => {
                write!(f, "{octet:02X} at place 1, where 01 should stand")
            }
            HeaderFault::BreaksOff(place) => write!(f, "it breaks off at place {place}"),
        }
    }
}
