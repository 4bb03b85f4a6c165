//! What becomes of a call place's record, and what is written to the party.
ghost use Rattle.std.specs.Prelude.{◌≡◌, ℕ, ◌≤◌, [], length, Some, None};
ghost use Rattle.std.specs.Option as Options;
ghost use Rattle.side.specs.Table.{heard_in, told_in};
ghost use Rattle.side.specs.Signals.{kind_of, contents_of};
ghost use Rattle.side.specs.Steps.{row_fault, One, written};
ghost use Rattle.side.specs.declared.kinds.System.TheVariants.{Dss1};
ghost use Rattle.dss1_meaning.specs.Dss1.{callable, reply_to, cleared_by, kept_of, told_type, told_elements, table, takes, taken, tells, told};
ghost use Rattle.dss1.specs.Fields.{table_of, message_octets};

use crate::fields::Fields;
use crate::writing::write;
use dss1_meaning::types::MessageType;
use side::contents::{Reading, Signal};
use side::kinds::{Phase, Refusal, System};
use side::leg::Leg;
use side::records::Dss1Record;
use side::refusing::check_row;

/// The first leg that the exchange begins; only those from it on may be called.
const FIRST_CALLABLE: usize = 32;

/// Whether a leg may be called.
pub fn callable(leg: Leg) -> bool
    ensures { result ≡ callable leg.number }
{
    leg.number() >= FIRST_CALLABLE
}

// Leg, signal and buffer are the arguments of the trait, and the buffer is lent for each message: no struct holds them.
/// Writes a message to a leg, if there is one, from the front of a buffer with room for every message.
fn send(leg: Leg, message: Option<(MessageType, Fields)>, out: &mut [u8]) -> usize
    requires { 256 ≤ length out.old }
    ensures wrote { out.new ≡ written (message_octets leg.number message) out.old }
    ensures long { result ≡ length (message_octets leg.number message) }
{
    let Some((message_type, fields)) = message else {
        return 0;
    };
    write(leg, message_type, &fields, out).unwrap()
}

/// What a message of a type is replied with, if anything.
fn reply_to(heard: u8) -> Option<MessageType>
    ensures { result ≡ reply_to heard }
{
    match MessageType::try_from(heard) {
        Ok(MessageType::Connect) => Some(MessageType::ConnectAcknowledge),
        Ok(MessageType::Disconnect) => Some(MessageType::Release),
        Ok(MessageType::Release) => Some(MessageType::ReleaseComplete),
        _ => None,
    }
}

/// The phase after the end of a call: a disconnect leaves the leg clearing.
fn cleared_by(heard: u8) -> Phase
    ensures { result ≡ cleared_by heard }
{
    match MessageType::try_from(heard) {
        Ok(MessageType::Disconnect) => Phase::Clearing,
        _ => Phase::Idle,
    }
}

/// The cause value that a record keeps after a signal: that of a clearing, else the one before.
fn cause_after(signal: &Signal, before: Option<u8>) -> Option<u8>
    ensures { result ≡ kept_of (contents_of signal.now).cause before }
{
    match *signal {
        Signal::Clear(cause, _) => Some(cause.value()),
        _ => before,
    }
}

/// The reply to a message of a type: a head alone, or nothing.
fn reply(heard: u8) -> Option<(MessageType, Fields)>
    ensures { Options.MatchOption result (reply_to heard ≡ None) (λ m. (reply_to heard ≡ Some m.0) × (table_of m.1 ≡ table [] [] [] [] [])) }
{
    let message = reply_to(heard)?;
    Some((message, Fields::none()))
}

// Each system has its own `take` and `tell`: what is kept and written differs; what is alike is `check_row` and the table.
/// Takes what was read: connect, disconnect and release are replied to.
pub fn take(
    before: Dss1Record,
    reading: &Reading,
    out: &mut [u8],
) -> Result<(Dss1Record, usize), Refusal>
    ensures { One (row_fault Dss1 (length out.old) (heard_in (kind_of reading.now.signal) before.phase)) (taken reading.now.leg.number before reading.now.heard (kind_of reading.now.signal) (contents_of reading.now.signal)) (takes reading.now.leg.number before.phase reading.now.heard (kind_of reading.now.signal) (contents_of reading.now.signal)).octets out.old out.new result }
{
    let kind = reading.signal.kind();
    check_row(System::Dss1, out.len(), kind.heard_in(before.phase))?;
    let phase = kind.heard_to(cleared_by(reading.heard), before.phase);
    let cause = cause_after(&reading.signal, before.cause);
    let n = send(reading.leg, reply(reading.heard), out);
    Ok((Dss1Record { phase, cause }, n))
}

/// The message that tells a signal, and what it holds; some kinds are not told.
fn message_of(signal: &Signal) -> Option<(MessageType, Fields)>
    ensures { Options.MatchOption result (told_type (kind_of signal.now) ≡ None) (λ m. (told_type (kind_of signal.now) ≡ Some m.0) × (told_elements (kind_of signal.now) (contents_of signal.now) ≡ table_of m.1)) }
{
    match *signal {
        Signal::Setup(setup) => Some((MessageType::Setup, Fields::setup(&setup))),
        Signal::Complete(progress, _) => {
            Some((MessageType::CallProceeding, Fields::progress(progress)))
        }
        Signal::Progress(progress, _) => {
            Some((MessageType::Progress, Fields::progress(Some(progress))))
        }
        Signal::Alerting(progress, isdn, parts) => {
            Some((MessageType::Alerting, Fields::party(progress, isdn, parts)))
        }
        Signal::Answer(progress, isdn, parts) => {
            Some((MessageType::Connect, Fields::party(progress, isdn, parts)))
        }
        Signal::Clear(cause, parts) => Some((MessageType::Disconnect, Fields::clear(cause, parts))),
        Signal::Quiet | Signal::Down => None,
    }
}

/// Tells a leg: one message, or nothing.
pub fn tell(
    before: Dss1Record,
    leg: Leg,
    signal: &Signal,
    out: &mut [u8],
) -> Result<(Dss1Record, usize), Refusal>
    ensures { One (row_fault Dss1 (length out.old) (told_in (kind_of signal.now) (callable leg.number) before.phase)) (told leg.number before (kind_of signal.now) (contents_of signal.now)) (tells leg.number before.phase (kind_of signal.now) (contents_of signal.now)).octets out.old out.new result }
{
    let kind = signal.kind();
    check_row(
        System::Dss1,
        out.len(),
        kind.told_in(callable(leg), before.phase),
    )?;
    let n = send(leg, message_of(signal), out);
    Ok((
        Dss1Record {
            phase: kind.told_to(before.phase),
            cause: before.cause,
        },
        n,
    ))
}
