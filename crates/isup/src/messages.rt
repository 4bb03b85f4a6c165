//! The messages of a call, each with its fixed octets.
ghost use Rattle.std.specs.Prelude.{◌≡◌, ℕ, ◌≤◌, [], length};
ghost use Rattle.std.specs.Option.{option_map};
ghost use Rattle.entries.specs.Entries.{listed};
ghost use Rattle.side.specs.Contents.{parts_of};
ghost use Rattle.side.specs.Signals.{bearer_of, progress_of, contents_of};
ghost use Rattle.side.specs.declared.contents.Signal.TheVariants as said;
ghost use Rattle.isup_meaning.specs.Writing.{optional_table, isdn_octet, medium_of, iam, rel};
ghost use Rattle.isup.specs.Messages.{plain_octets};
ghost use Rattle.isup.specs.Writes.{message_of, Sent};

use crate::fields::{Optional, cause_field, number_field, progress_octets};
use crate::writing::write;
use held::Held;
use isup_meaning::types::MessageType;
use isup_reading::codes::Event;
use side::contents::{Bearer, Cause, Progress, Setup};
use side::leg::Leg;
use side::parts::Parts;
use values::Capability;
use writer::types::WriteFault;

/// The pointer to a field that stands right behind the two pointers.
const NEXT_BUT_ONE: u8 = 2;

/// What an address complete message says of the called party, with the octet that says it.
#[derive(Clone, Copy)]
pub(crate) enum Status {
    NoIndication = 0x10,
    SubscriberFree = 0x14,
}

/// A message with no field: fixed octets, and a list with progress and the parts.
#[derive(Clone, Copy)]
pub(crate) enum Plain {
    /// The number is complete: the called party's status, and whether the access is ISDN.
    AddressComplete(Status, bool),
    CallProgress(Event),
    /// The answer where no address complete message went before: whether the access is ISDN.
    Connect(bool),
    Answer,
}

/// An indicator octet with and without its ISDN bit.
fn isdn_octet(with: u8, without: u8, isdn: bool) -> u8
    ensures { result ≡ isdn_octet «with» without isdn }
{
    if isdn { with } else { without }
}

/// The medium that serves a bearer.
fn medium(bearer: &Bearer) -> u8
    ensures { result ≡ medium_of (bearer_of bearer.now) }
{
    match bearer.capability() {
        Capability::Speech => 0x00,
        Capability::Unrestricted => 0x02,
        Capability::Audio => 0x03,
    }
}

// Leg, parts and buffer are three parameters here and below: what is told comes apart, and the buffer is lent.
/// Fixed octets, and a list with progress and the parts.
fn fieldless(
    out: &mut [u8],
    fixed: &[u8],
    progress: Option<Progress>,
    parts: &Parts,
) -> Result<usize, WriteFault>
    requires { length fixed.now ≤ 9 }
    ensures { Sent (message_of fixed.now [] (listed (optional_table (option_map progress_of progress) (parts_of parts.now) []))) out.old out.new result }
{
    let optional = Optional {
        progress: progress_octets(progress),
        parts,
        bearer: &[],
    };
    write(out, fixed, Held::none(), &optional)
}

impl Plain {
    // Each arm hands on its own fixed octets: they differ in number, and an array has one length.
    /// Writes it from the front of a buffer; one of 256 octets holds every message.
    pub(crate) fn write(
        self,
        leg: Leg,
        progress: Option<Progress>,
        parts: &Parts,
        out: &mut [u8],
    ) -> Result<usize, WriteFault>
        ensures { Sent (plain_octets self leg.number (listed (optional_table (option_map progress_of progress) (parts_of parts.now) []))) out.old out.new result }
    {
        match self {
            Plain::AddressComplete(status, isdn) => {
                let fixed = [
                    leg.octet(),
                    0x00,
                    MessageType::AddressComplete.octet(),
                    status as u8,
                    isdn_octet(0x14, 0x04, isdn),
                ];
                fieldless(out, &fixed, progress, parts)
            }
            Plain::CallProgress(event) => {
                let fixed = [
                    leg.octet(),
                    0x00,
                    MessageType::CallProgress.octet(),
                    event.octet(),
                ];
                fieldless(out, &fixed, progress, parts)
            }
            Plain::Connect(isdn) => {
                let fixed = [
                    leg.octet(),
                    0x00,
                    MessageType::Connect.octet(),
                    0x10,
                    isdn_octet(0x14, 0x04, isdn),
                ];
                fieldless(out, &fixed, progress, parts)
            }
            Plain::Answer => {
                let fixed = [leg.octet(), 0x00, MessageType::Answer.octet()];
                fieldless(out, &fixed, progress, parts)
            }
        }
    }
}

/// An initial address message.
pub(crate) fn initial_address(leg: Leg, setup: &Setup, out: &mut [u8]) -> Result<usize, WriteFault>
    ensures { Sent (iam leg.number (contents_of (said.Setup setup.now))) out.old out.new result }
{
    let fixed = [
        leg.octet(),
        0x00,
        MessageType::InitialAddress.octet(),
        0x00,
        0x20,
        isdn_octet(0x01, 0x00, setup.isdn),
        0x0A,
        medium(&setup.bearer),
        NEXT_BUT_ONE,
    ];
    let optional = Optional {
        progress: progress_octets(setup.progress),
        parts: &setup.parts,
        bearer: setup.bearer.as_octets(),
    };
    write(out, &fixed, number_field(&setup.number), &optional)
}

/// A release message.
pub(crate) fn release(
    leg: Leg,
    cause: Cause,
    parts: &Parts,
    out: &mut [u8],
) -> Result<usize, WriteFault>
    ensures { Sent (rel leg.number (contents_of (said.Clear cause parts.now))) out.old out.new result }
{
    let fixed = [
        leg.octet(),
        0x00,
        MessageType::Release.octet(),
        NEXT_BUT_ONE,
    ];
    let optional = Optional {
        progress: Held::none(),
        parts,
        bearer: &[],
    };
    write(out, &fixed, cause_field(cause), &optional)
}
