//! Calls over a book of lines: phases, what is told, and the records that the host lends.
use book::LegBook;
use digits::Digits;
use line::Line;
use side::contents::{Bearer, Cause, Number, Setup, Signal};
use side::kinds::{Layer, Phase, Reason, Refusal, System};
use side::leg::Leg;
use side::parts::Parts;
use side::records::{Dialled, LineRecord};
use side::{Side, Signalling};
use std::process::Abort;
use std::test::Fail;
use values::NumberType;

const BLANK: LineRecord = LineRecord {
    phase: Phase::Idle,
    dialled: None,
};

/// What a buffer holds before anything is written.
const FILL: u8 = 0xEE;

fn refusal(reason: Reason) -> Refusal {
    Refusal {
        reason,
        place: 0,
        system: System::Line,
        layer: Layer::Legs,
    }
}

fn place(number: usize) -> Result<Leg, Fail> {
    Ok(Leg::new(number).ok_or("no leg has this number")?)
}

fn setup_signal(number: &[u8]) -> Result<Signal, Fail> {
    let digits = Digits::read(number)?;
    Ok(Signal::Setup(Setup {
        bearer: Bearer::audio(),
        number: Number {
            kind: NumberType::Unknown,
            digits,
        },
        progress: None,
        isdn: false,
        parts: Parts::none(),
    }))
}

/// Checks that these octets stand in front, and that those behind them are as they were.
fn stands(rt: &impl Abort, buf: &[u8], written: &[u8]) {
    let n = written.len();
    assert!(rt; n <= buf.len());
    assert_eq!(rt; &buf[..n], written);
    for octet in &buf[n..] {
        assert_eq!(rt; *octet, FILL);
    }
}

/// A line hears an event without digits; nothing is replied. It is then in this phase.
fn hears(
    rt: &impl Abort,
    book: &mut LegBook<'_, Line>,
    leg: Leg,
    event: u8,
    phase: Phase,
) -> Result<(), Fail> {
    let mut reply = [FILL; 256];
    let reading = book.read(&[b'L', b'I', b'N', 0, 1, leg.octet(), event, 0])?;
    assert_eq!(rt; book.take(&reading, &mut reply), Ok(0));
    stands(rt, &reply, &[]);
    assert_eq!(rt; book.phase(leg), Some(phase));
    Ok(())
}

/// A line dials.
fn dials(rt: &impl Abort, book: &mut LegBook<'_, Line>, message: &[u8]) -> Result<(), Fail> {
    let mut reply = [FILL; 256];
    let reading = book.read(message)?;
    assert_eq!(rt; book.take(&reading, &mut reply), Ok(0));
    stands(rt, &reply, &[]);
    assert_eq!(rt; book.phase(reading.leg), Some(Phase::Calling));
    Ok(())
}

/// A message that the phase of its line has no row for: refused, and nothing changes.
fn is_refused(rt: &impl Abort, book: &mut LegBook<'_, Line>, message: &[u8]) -> Result<(), Fail> {
    let mut reply = [FILL; 256];
    let reading = book.read(message)?;
    let phase = book.phase(reading.leg);
    assert_eq!(rt;
        book.take(&reading, &mut reply),
        Err(refusal(Reason::WrongPhase))
    );
    stands(rt, &reply, &[]);
    assert_eq!(rt; book.phase(reading.leg), phase);
    Ok(())
}

/// The same of an event without digits.
fn hears_not(
    rt: &impl Abort,
    book: &mut LegBook<'_, Line>,
    leg: Leg,
    event: u8,
) -> Result<(), Fail> {
    is_refused(rt, book, &[b'L', b'I', b'N', 0, 1, leg.octet(), event, 0])
}

/// A line is told an event, which is written and no octet more. It is then in this phase.
fn is_told(
    rt: &impl Abort,
    book: &mut LegBook<'_, Line>,
    leg: Leg,
    signal: &Signal,
    event: u8,
    phase: Phase,
) {
    let mut message = [FILL; 256];
    assert_eq!(rt; book.tell(leg, signal, &mut message), Ok(8));
    stands(
        rt,
        &message,
        &[b'L', b'I', b'N', 0, 1, leg.octet(), event, 0],
    );
    assert_eq!(rt; book.phase(leg), Some(phase));
}

/// A line cannot be told a signal: refused, and nothing changes.
fn is_not_told(rt: &impl Abort, book: &mut LegBook<'_, Line>, leg: Leg, signal: &Signal) {
    let mut message = [FILL; 256];
    let phase = book.phase(leg);
    assert_eq!(rt;
        book.tell(leg, signal, &mut message),
        Err(refusal(Reason::WrongPhase))
    );
    stands(rt, &message, &[]);
    assert_eq!(rt; book.phase(leg), phase);
}

#[test]
fn a_line_that_is_called(rt: HostRuntime) -> Result<(), Fail> {
    let mut records = [BLANK; 3];
    let mut book = LegBook::<Line>::open(&mut records);
    let leg = place(1)?;
    let setup = setup_signal(b"42")?;
    hears_not(&rt, &mut book, leg, 0x02)?;
    hears_not(&rt, &mut book, leg, 0x03)?;
    is_told(&rt, &mut book, leg, &setup, 0x11, Phase::Called);
    is_not_told(&rt, &mut book, leg, &setup);
    is_not_told(
        &rt,
        &mut book,
        leg,
        &Signal::Answer(None, false, Parts::none()),
    );
    hears(&rt, &mut book, leg, 0x02, Phase::Alerted)?;
    hears_not(&rt, &mut book, leg, 0x02)?;
    hears(&rt, &mut book, leg, 0x03, Phase::Answered)?;
    hears_not(&rt, &mut book, leg, 0x03)?;
    is_not_told(
        &rt,
        &mut book,
        leg,
        &Signal::Alerting(None, false, Parts::none()),
    );
    hears(&rt, &mut book, leg, 0x04, Phase::Idle)?;
    hears(&rt, &mut book, leg, 0x04, Phase::Idle)?;
    is_not_told(
        &rt,
        &mut book,
        leg,
        &Signal::Clear(Cause::normal(), Parts::none()),
    );
    Ok(())
}

#[test]
fn a_line_that_calls(rt: HostRuntime) -> Result<(), Fail> {
    let mut records = [BLANK; 3];
    let mut book = LegBook::<Line>::open(&mut records);
    let leg = place(2)?;
    let alerting = Signal::Alerting(None, true, Parts::none());
    let answer = Signal::Answer(None, true, Parts::none());
    let clear = Signal::Clear(Cause::normal(), Parts::none());
    is_not_told(&rt, &mut book, leg, &alerting);
    dials(&rt, &mut book, b"LIN\x00\x01\x02\x01\x03123")?;
    is_not_told(&rt, &mut book, leg, &setup_signal(b"9")?);
    is_told(&rt, &mut book, leg, &alerting, 0x12, Phase::CallingComplete);
    is_told(&rt, &mut book, leg, &answer, 0x13, Phase::Answered);
    is_not_told(&rt, &mut book, leg, &answer);
    is_told(&rt, &mut book, leg, &clear, 0x14, Phase::Clearing);
    is_not_told(&rt, &mut book, leg, &clear);
    is_not_told(&rt, &mut book, leg, &Signal::Down);
    hears(&rt, &mut book, leg, 0x04, Phase::Idle)
}

/// What a line has no event for is told in silence, where its phase has a row.
#[test]
fn signals_without_an_event(rt: HostRuntime) -> Result<(), Fail> {
    let mut records = [BLANK; 3];
    let mut book = LegBook::<Line>::open(&mut records);
    let leg = place(0)?;
    let mut message = [FILL; 256];
    dials(&rt, &mut book, b"LIN\x00\x01\x00\x01\x017")?;
    is_not_told(&rt, &mut book, leg, &Signal::Quiet);
    assert_eq!(rt;
        book.tell(leg, &Signal::Complete(None, true), &mut message),
        Ok(0)
    );
    stands(&rt, &message, &[]);
    assert_eq!(rt; book.phase(leg), Some(Phase::CallingComplete));
    assert_eq!(rt; book.phase(place(3)?), None);
    assert!(rt; Leg::new(64).is_none());
    assert!(rt; book.callable(leg) && !book.callable(place(3)?));
    is_not_told(&rt, &mut book, place(3)?, &Signal::Complete(None, true));
    Ok(())
}

/// Below 256 octets a buffer is refused first, whatever the phase.
#[test]
fn a_short_buffer(rt: HostRuntime) -> Result<(), Fail> {
    let mut records = [BLANK; 3];
    let mut book = LegBook::<Line>::open(&mut records);
    let leg = place(0)?;
    let mut short = [FILL; 255];
    let wanted = Err(refusal(Reason::ShortBuffer));
    assert_eq!(rt; Reason::ShortBuffer.number(), 1);
    assert_eq!(rt; Reason::WrongPhase.number(), 7);
    assert_eq!(rt; book.tell(leg, &setup_signal(b"1")?, &mut short), wanted);
    assert_eq!(rt; book.tell(leg, &Signal::Down, &mut short), wanted);
    let reading = book.read(b"LIN\x00\x01\x00\x01\x017")?;
    assert_eq!(rt; book.take(&reading, &mut short), wanted);
    assert_eq!(rt; book.phase(leg), Some(Phase::Idle));
    stands(&rt, &short, &[]);
    Ok(())
}

/// Checks the number that a record keeps: its digits, and zeros behind them.
fn keeps(rt: &impl Abort, dialled: Option<Dialled>, number: &[u8]) -> Result<(), Fail> {
    let kept = dialled.ok_or("no number")?;
    assert!(rt; kept.count <= 20);
    assert_eq!(rt; &kept.octets[..kept.count], number);
    for octet in &kept.octets[kept.count..] {
        assert_eq!(rt; *octet, 0);
    }
    Ok(())
}

/// Some calls over a host's records.
fn calls(rt: &impl Abort, records: &mut [LineRecord]) -> Result<(), Fail> {
    let mut book = LegBook::<Line>::open(records);
    dials(
        rt,
        &mut book,
        b"LIN\x00\x01\x00\x01\x1401234567890123456789",
    )?;
    is_refused(rt, &mut book, b"LIN\x00\x01\x00\x01\x0288")?;
    dials(rt, &mut book, b"LIN\x00\x01\x01\x01\x0299")?;
    hears(rt, &mut book, place(1)?, 0x04, Phase::Idle)?;
    is_told(
        rt,
        &mut book,
        place(2)?,
        &setup_signal(b"5")?,
        0x11,
        Phase::Called,
    );
    Ok(())
}

#[test]
fn the_host_sees_its_records(rt: HostRuntime) -> Result<(), Fail> {
    let mut records = [LineRecord {
        phase: Phase::Clearing,
        dialled: None,
    }; 3];
    calls(&rt, &mut records)?;
    assert_eq!(rt; records[0].phase, Phase::Calling);
    keeps(&rt, records[0].dialled, b"01234567890123456789")?;
    // A number stays when its call is over, and a line that is called keeps none.
    assert_eq!(rt; records[1].phase, Phase::Idle);
    keeps(&rt, records[1].dialled, b"99")?;
    assert_eq!(rt; records[2].phase, Phase::Called);
    assert!(rt; records[2].dialled.is_none());
    Ok(())
}

#[test]
fn more_records_than_lines(rt: HostRuntime) -> Result<(), Fail> {
    let mut records = [LineRecord {
        phase: Phase::Clearing,
        dialled: None,
    }; 34];
    let last = place(31)?;
    let beyond = place(32)?;
    {
        let mut book = LegBook::<Line>::open(&mut records);
        assert_eq!(rt; book.legs(), 32);
        assert_eq!(rt; book.phase(last), Some(Phase::Idle));
        assert_eq!(rt; book.phase(beyond), None);
        assert!(rt; book.read(b"LIN\x00\x01\x20\x04\x00").is_err());
        is_told(
            &rt,
            &mut book,
            last,
            &setup_signal(b"5")?,
            0x11,
            Phase::Called,
        );
        is_not_told(&rt, &mut book, beyond, &setup_signal(b"5")?);
    }
    assert_eq!(rt; records[30].phase, Phase::Idle);
    assert_eq!(rt; records[31].phase, Phase::Called);
    assert_eq!(rt; records[32].phase, Phase::Clearing);
    assert_eq!(rt; records[33].phase, Phase::Clearing);
    Ok(())
}
