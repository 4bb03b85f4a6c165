//! Writes a message: its head, then its elements in ascending order.
ghost use Rattle.std.specs.Prelude.{ℕ, ◌+◌, ◌<◌, ◌++◌, length, MatchResult};
ghost use Rattle.writer.specs.Written.{Adds};
ghost use Rattle.entries.specs.Entries.{listed};
ghost use Rattle.dss1_meaning.specs.Dss1.{head};
ghost use Rattle.dss1.specs.Fields.{table_of};

use crate::fields::Fields;
use carried::{CALLED, CALLING, HIGH, LOW, PROGRESS, USER_USER};
use dss1_meaning::types::MessageType;
use dss1_reading::octets::{BEARER, CAUSE, NUMBER, PROTOCOL, REFERENCE_LENGTH};
use dss1_reading::reference::reference_to;
use elements::Dss1 as Coding;
use entries::entry;
use side::leg::Leg;
use writer::types::WriteFault;
use writer::{Closed, Open};

/// Writes the elements behind what is written, those that hold something; 251 octets are room enough.
fn write_elements(front: Open, fields: &Fields, out: &mut [u8]) -> Result<Closed, WriteFault>
    ensures { MatchResult result (λ closed. Adds (listed (table_of fields.now)) front.at out.old closed.length out.new) (λ _. length out.old < front.at + 251) }
{
    front.list(Coding).close_with(
        out,
        &[
            entry(BEARER, fields.bearer.as_octets()),
            entry(CAUSE, fields.cause.as_octets()),
            entry(PROGRESS, fields.progress.as_octets()),
            entry(CALLING, fields.parts.calling()),
            entry(NUMBER, fields.number.as_octets()),
            entry(CALLED, fields.parts.called()),
            entry(LOW, fields.parts.low()),
            entry(HIGH, fields.parts.high()),
            entry(USER_USER, fields.parts.user_user()),
        ],
    )
}

/// Writes a message to a leg from the front of a buffer; one of 256 octets holds every message.
pub fn write(
    leg: Leg,
    message: MessageType,
    fields: &Fields,
    out: &mut [u8],
) -> Result<usize, WriteFault>
    ensures { MatchResult result (λ n. Adds (head leg.number message ++ listed (table_of fields.now)) 0 out.old n out.new) (λ _. length out.old < 256) }
{
    let head = [
        PROTOCOL,
        REFERENCE_LENGTH,
        reference_to(leg),
        message.octet(),
    ];
    let front = Open::begin().octets(out, &head)?;
    let closed = write_elements(front, fields, out)?;
    Ok(closed.length())
}
