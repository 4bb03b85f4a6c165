//! What becomes of a line's record, and what is written to a line.
ghost use Rattle.std.specs.Prelude.{◌≡◌, ℕ, ◌≤◌, true, [], length, Some, None};
ghost use Rattle.std.specs.Option.{option_map};
ghost use Rattle.digits.specs.Dialling.{characters};
ghost use Rattle.side.specs.Table.{heard_in, told_in, heard_to, told_to};
ghost use Rattle.side.specs.Signals.{kind_of, contents_of};
ghost use Rattle.side.specs.Steps.{row_fault, One, written};
ghost use Rattle.side.specs.declared.kinds.System.TheVariants.{Line};
ghost use Rattle.line.specs.Events.{told_octet};
ghost use Rattle.line_meaning.specs.Lines.{kept, kept_of, told_event, told_octets, taken, told};

use digits::Digits;
use side::contents::{Reading, Signal};
use side::kinds::{Kind, Phase, Refusal, System};
use side::leg::Leg;
use side::records::{Dialled, LineRecord};
use side::refusing::check_row;

/// A number as a record keeps it.
fn keep(digits: &Digits) -> Dialled
    ensures { result ≡ kept (characters digits.now) }
{
    let mut octets = [0u8; 20];
    let count = digits.len();
    octets[..count].copy_from_slice(digits.as_octets());
    Dialled { octets, count }
}

/// The number that a record keeps after a signal: that of a setup, else the one before.
fn dialled_after(signal: &Signal, before: Option<Dialled>) -> Option<Dialled>
    ensures { result ≡ kept_of (contents_of signal.now).number before }
{
    match *signal {
        Signal::Setup(setup) => Some(keep(&setup.number.digits)),
        _ => before,
    }
}

// Each system has its own `take` and `tell`: what is kept and written differs; what is alike is `check_row` and the table.
/// Takes what was read: nothing is replied, and a line that clears is free at once.
pub fn take(
    before: LineRecord,
    reading: &Reading,
    reply: &mut [u8],
) -> Result<(LineRecord, usize), Refusal>
    ensures { One (row_fault Line (length reply.old) (heard_in (kind_of reading.now.signal) before.phase)) (taken reading.now.leg.number before reading.now.heard (kind_of reading.now.signal) (contents_of reading.now.signal)) [] reply.old reply.new result }
{
    let kind = reading.signal.kind();
    check_row(System::Line, reply.len(), kind.heard_in(before.phase))?;
    let phase = kind.heard_to(Phase::Idle, before.phase);
    let dialled = dialled_after(&reading.signal, before.dialled);
    Ok((LineRecord { phase, dialled }, 0))
}

/// What a line is told.
#[derive(Clone, Copy)]
enum Told {
    Setup = 0x11,
    Alerting = 0x12,
    Answer = 0x13,
    Clear = 0x14,
}

/// The event by which a line is told a kind, if any.
fn told_event(kind: Kind) -> Option<Told>
    ensures { option_map told_octet result ≡ told_event kind }
{
    match kind {
        Kind::Setup => Some(Told::Setup),
        Kind::Alerting => Some(Told::Alerting),
        Kind::Answer => Some(Told::Answer),
        Kind::Clear => Some(Told::Clear),
        Kind::Complete | Kind::Progress | Kind::Quiet | Kind::Down => None,
    }
}

/// Writes an event from the front of a buffer; where there is none, nothing.
fn write_event(leg: Leg, event: Option<Told>, out: &mut [u8]) -> usize
    requires { 256 ≤ length out.old }
    ensures wrote { out.new ≡ written (told_octets leg.number (option_map told_octet event)) out.old }
    ensures long { result ≡ length (told_octets leg.number (option_map told_octet event)) }
{
    match event {
        Some(event) => {
            let octets = [b'L', b'I', b'N', 0x00, 0x01, leg.octet(), event as u8, 0x00];
            out[..octets.len()].copy_from_slice(&octets);
            octets.len()
        }
        None => 0,
    }
}

/// Tells a line: one event, or nothing.
pub fn tell(
    before: LineRecord,
    leg: Leg,
    signal: &Signal,
    message: &mut [u8],
) -> Result<(LineRecord, usize), Refusal>
    ensures { One (row_fault Line (length message.old) (told_in (kind_of signal.now) true before.phase)) (told leg.number before (kind_of signal.now) (contents_of signal.now)) (told_octets leg.number (told_event (kind_of signal.now))) message.old message.new result }
{
    let kind = signal.kind();
    check_row(
        System::Line,
        message.len(),
        kind.told_in(true, before.phase),
    )?;
    let n = write_event(leg, told_event(kind), message);
    Ok((
        LineRecord {
            phase: kind.told_to(before.phase),
            dialled: before.dialled,
        },
        n,
    ))
}
