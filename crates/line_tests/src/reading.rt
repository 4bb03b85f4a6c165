//! What a line sends, as a book of three lines reads it.
use book::LegBook;
use line::Line;
use side::contents::{Reading, Signal};
use side::kinds::{Kind, Layer, Phase, Reason, Refusal, System};
use side::records::LineRecord;
use side::{Side, Signalling};
use std::process::Abort;
use std::test::Fail;
use values::NumberType;

const BLANK: LineRecord = LineRecord {
    phase: Phase::Idle,
    dialled: None,
};

fn read(message: &[u8]) -> Result<Reading, Refusal> {
    let mut records = [BLANK; 3];
    LegBook::<Line>::open(&mut records).read(message)
}

/// Checks an event that a line sent, and the digits where it has some.
fn reads(
    rt: &impl Abort,
    message: &[u8],
    line: usize,
    kind: Kind,
    number: &[u8],
) -> Result<(), Fail> {
    let reading = read(message)?;
    assert_eq!(rt; reading.leg.number(), line);
    assert_eq!(rt; Some(&reading.heard), message.get(6));
    assert_eq!(rt; reading.signal.kind(), kind);
    match reading.signal {
        Signal::Setup(setup) => {
            assert_eq!(rt; setup.number.kind, NumberType::Unknown);
            assert_eq!(rt; setup.bearer.as_octets(), [0x90, 0x90, 0xA3].as_slice());
            assert!(rt; !setup.isdn && setup.progress.is_none());
            assert_eq!(rt; setup.number.digits.as_octets(), number);
            Ok(())
        }
        Signal::Alerting(progress, isdn, _) | Signal::Answer(progress, isdn, _) => {
            assert!(rt; !isdn && progress.is_none());
            Ok(())
        },
        _ => {
            assert_eq!(rt; reading.signal.kind(), Kind::Clear);
            Ok(())
        },
    }
}

#[test]
fn every_event_is_read(rt: HostRuntime) -> Result<(), Fail> {
    reads(&rt, b"LIN\x00\x01\x00\x01\x017", 0, Kind::Setup, b"7")?;
    reads(&rt, b"LIN\x00\x01\x01\x01\x03123", 1, Kind::Setup, b"123")?;
    reads(
        &rt,
        b"LIN\x00\x01\x02\x01\x1401234567890123456789",
        2,
        Kind::Setup,
        b"01234567890123456789",
    )?;
    reads(&rt, b"LIN\x00\x01\x00\x02\x00", 0, Kind::Alerting, b"")?;
    reads(&rt, b"LIN\x00\x01\x01\x03\x00", 1, Kind::Answer, b"")?;
    reads(&rt, b"LIN\x00\x01\x02\x04\x00", 2, Kind::Clear, b"")
}

/// Checks that a message is refused, by the number of the reason and the place.
fn refused(rt: &impl Abort, message: &[u8], number: u8, place: usize) -> Result<(), Fail> {
    let Err(refusal) = read(message) else {
        return Err(Fail::new("the message is read"));
    };
    assert_eq!(rt; refusal.reason.number(), number);
    let reason = refusal.reason;
    assert_eq!(rt;
        refusal,
        Refusal {
            reason,
            place,
            system: System::Line,
            layer: Layer::Message,
        }
    );
    Ok(())
}

#[test]
fn heads_are_refused(rt: HostRuntime) -> Result<(), Fail> {
    refused(&rt, b"", 2, 0)?;
    refused(&rt, b"KIN\x00\x01\x00\x02\x00", 2, 0)?;
    refused(&rt, b"LiN\x00\x01\x00\x02\x00", 2, 0)?;
    refused(&rt, b"LIM\x00\x01\x00\x02\x00", 2, 0)?;
    refused(&rt, b"LIN\x01\x01\x00\x02\x00", 2, 0)?;
    refused(&rt, b"LIN\x00\x02\x00\x02\x00", 2, 0)?;
    // The event is judged first, then the line, then the count.
    refused(&rt, b"LIN\x00\x01\x09\x00\x01", 3, 6)?;
    refused(&rt, b"LIN\x00\x01\x00\x05\x00", 3, 6)?;
    refused(&rt, b"LIN\x00\x01\x00\x11\x00", 3, 6)?;
    refused(&rt, b"LIN\x00\x01\x00\xFF\x00", 3, 6)?;
    refused(&rt, b"LIN\x00\x01\x03\x02\x01", 4, 5)?;
    refused(&rt, b"LIN\x00\x01\x20\x02\x00", 4, 5)?;
    refused(&rt, b"LIN\x00\x01\xFF\x01\x017", 4, 5)
}

#[test]
fn digits_are_refused(rt: HostRuntime) -> Result<(), Fail> {
    // The count is not that of the digits left.
    refused(&rt, b"LIN\x00\x01\x00\x01\x0112", 2, 7)?;
    refused(&rt, b"LIN\x00\x01\x00\x01\x0312", 2, 7)?;
    refused(&rt, b"LIN\x00\x01\x00\x02\x01", 2, 7)?;
    refused(&rt, b"LIN\x00\x01\x00\x04\x007", 2, 7)?;
    // None, and one too many.
    refused(&rt, b"LIN\x00\x01\x00\x01\x00", 6, 7)?;
    refused(&rt, b"LIN\x00\x01\x00\x01\x15012345678901234567890", 6, 7)?;
    // A character that is no digit, at its own place.
    refused(&rt, b"LIN\x00\x01\x00\x01\x01/", 6, 8)?;
    refused(&rt, b"LIN\x00\x01\x00\x01\x031:2", 6, 9)?;
    refused(&rt, b"LIN\x00\x01\x00\x01\x140123456789012345678A", 6, 27)?;
    // Digits in an event that has none.
    refused(&rt, b"LIN\x00\x01\x00\x02\x017", 6, 7)?;
    refused(&rt, b"LIN\x00\x01\x00\x03\x0212", 6, 7)?;
    refused(&rt, b"LIN\x00\x01\x00\x04\x017", 6, 7)
}

/// A setup with the number 123.
const SETUP: [u8; 11] = [b'L', b'I', b'N', 0, 1, 1, 1, 3, b'1', b'2', b'3'];

#[test]
fn a_setup_cut_at_every_octet(rt: HostRuntime) -> Result<(), Fail> {
    for n in 0..8 {
        refused(&rt, &SETUP[..n], 2, 0)?;
    }
    for n in 8..11 {
        refused(&rt, &SETUP[..n], 2, 7)?;
    }
    reads(&rt, &SETUP, 1, Kind::Setup, b"123")
}

/// A message of the longest kind: a setup with the count that it has, and far too many digits.
fn longest() -> [u8; 256] {
    let mut message = [b'5'; 256];
    message[0..8].copy_from_slice(&[b'L', b'I', b'N', 0, 1, 0, 1, 247]);
    message
}

#[test]
fn the_longest_message(rt: HostRuntime) -> Result<(), Fail> {
    let message = longest();
    refused(&rt, &message[0..255], 6, 7)?;
    refused(&rt, &message, 2, 0)
}
