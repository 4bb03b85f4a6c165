//! What becomes of a circuit's record, and what is written to a distant exchange.
ghost use Rattle.std.specs.Prelude.{◌≡◌, ℕ, true, length, Some};
ghost use Rattle.side.specs.Table.{heard_in, told_in};
ghost use Rattle.side.specs.Signals.{kind_of, contents_of, progress_of};
ghost use Rattle.side.specs.Steps.{row_fault, One};
ghost use Rattle.side.specs.declared.kinds.System.TheVariants.{Isup};
ghost use Rattle.isup_meaning.specs.Writing.{replied, cleared_from, seized_by, takes, taken, progress_event, completed, told_octets, tells, told};
ghost use Rattle.isup_reading.specs.Events.{event_octet};
ghost use Rattle.isup.specs.Writes.{Sent};

use crate::fields::is_in_band;
use crate::messages::{Plain, Status, initial_address, release};
use crate::writing::put;
use isup_meaning::types::MessageType;
use isup_reading::codes::Event;
use side::contents::{Progress, Reading, Signal};
use side::kinds::{Kind, Phase, Refusal, System};
use side::leg::Leg;
use side::parts::Parts;
use side::records::{CircuitRecord, Seizer};
use side::refusing::check_row;
use writer::Open;
use writer::types::WriteFault;

/// The phase after the call ended: a circuit that is clearing stays so, any other is free.
fn cleared_from(phase: Phase) -> Phase
    ensures { result ≡ cleared_from phase }
{
    match phase {
        Phase::Clearing => Phase::Clearing,
        _ => Phase::Idle,
    }
}

/// Who last seized the circuit.
fn seized_by(who: Seizer, kind: Kind, before: Option<Seizer>) -> Option<Seizer>
    ensures { result ≡ seized_by who kind before }
{
    match kind {
        Kind::Setup => Some(who),
        _ => before,
    }
}

// Leg, signal and buffer are the arguments of the trait, and the buffer is lent for each message: no struct holds them.
/// A release is replied by a release complete message; nothing else is.
fn write_reply(leg: Leg, heard: u8, out: &mut [u8]) -> Result<usize, WriteFault>
    ensures { Sent (replied leg.number heard) out.old out.new result }
{
    if heard != MessageType::Release.octet() {
        return Ok(0);
    }
    let reply = [
        leg.octet(),
        0x00,
        MessageType::ReleaseComplete.octet(),
        0x00,
    ];
    let front = put(Open::begin(), out, &reply)?;
    Ok(front.close().length())
}

// Each system has its own `take` and `tell`: what is kept and written differs; what is alike is `check_row` and the table.
/// Takes what was read.
pub fn take(
    before: CircuitRecord,
    reading: &Reading,
    reply: &mut [u8],
) -> Result<(CircuitRecord, usize), Refusal>
    ensures { One (row_fault Isup (length reply.old) (heard_in (kind_of reading.now.signal) before.phase)) (taken reading.now.leg.number before reading.now.heard (kind_of reading.now.signal) (contents_of reading.now.signal)) (takes reading.now.leg.number before.phase reading.now.heard (kind_of reading.now.signal) (contents_of reading.now.signal)).octets reply.old reply.new result }
{
    let kind = reading.signal.kind();
    check_row(System::Isup, reply.len(), kind.heard_in(before.phase))?;
    let after = CircuitRecord {
        phase: kind.heard_to(cleared_from(before.phase), before.phase),
        seized: seized_by(Seizer::FarEnd, kind, before.seized),
    };
    // The row was asked with the buffer's length, and 256 octets hold every message.
    let count = write_reply(reading.leg, reading.heard, reply).unwrap();
    Ok((after, count))
}

/// Whether an address complete message went before.
fn is_completed(phase: Phase) -> bool
    ensures { result ≡ completed phase }
{
    matches!(phase, Phase::CallingComplete)
}

/// The event of progress: in-band information is one of its own.
fn progress_event(progress: Progress) -> Event
    ensures { event_octet result ≡ progress_event (Some (progress_of progress)) }
{
    if is_in_band(progress) {
        Event::InBand
    } else {
        Event::Progress
    }
}

/// Writes what a signal says; where that is nothing, nothing.
fn write_signal(leg: Leg, done: bool, signal: &Signal, out: &mut [u8]) -> Result<usize, WriteFault>
    ensures { Sent (told_octets leg.number done (kind_of signal.now) (contents_of signal.now)) out.old out.new result }
{
    match *signal {
        Signal::Setup(setup) => initial_address(leg, &setup, out),
        Signal::Complete(progress, isdn) => {
            let message = if done {
                Plain::CallProgress(Event::Progress)
            } else {
                Plain::AddressComplete(Status::NoIndication, isdn)
            };
            message.write(leg, progress, &Parts::none(), out)
        }
        Signal::Progress(progress, isdn) => {
            let message = if done {
                Plain::CallProgress(progress_event(progress))
            } else {
                Plain::AddressComplete(Status::NoIndication, isdn)
            };
            message.write(leg, Some(progress), &Parts::none(), out)
        }
        Signal::Alerting(progress, isdn, parts) => {
            let message = if done {
                Plain::CallProgress(Event::Alerting)
            } else {
                Plain::AddressComplete(Status::SubscriberFree, isdn)
            };
            message.write(leg, progress, &parts, out)
        }
        Signal::Answer(progress, isdn, parts) => {
            let message = if done {
                Plain::Answer
            } else {
                Plain::Connect(isdn)
            };
            message.write(leg, progress, &parts, out)
        }
        Signal::Clear(cause, parts) => release(leg, cause, &parts, out),
        Signal::Quiet | Signal::Down => Ok(0),
    }
}

/// Tells a circuit.
pub fn tell(
    before: CircuitRecord,
    leg: Leg,
    signal: &Signal,
    message: &mut [u8],
) -> Result<(CircuitRecord, usize), Refusal>
    ensures { One (row_fault Isup (length message.old) (told_in (kind_of signal.now) true before.phase)) (told leg.number before (kind_of signal.now) (contents_of signal.now)) (tells leg.number before.phase (kind_of signal.now) (contents_of signal.now)).octets message.old message.new result }
{
    let kind = signal.kind();
    check_row(
        System::Isup,
        message.len(),
        kind.told_in(true, before.phase),
    )?;
    let after = CircuitRecord {
        phase: kind.told_to(before.phase),
        seized: seized_by(Seizer::We, kind, before.seized),
    };
    // The row was asked with the buffer's length, and 256 octets hold every message.
    let count = write_signal(leg, is_completed(before.phase), signal, message).unwrap();
    Ok((after, count))
}
