//! Reads what a line sends: LIN, version 00 01, line, event, count of digits, digits.
ghost use Rattle.std.specs.Prelude.{◌≡◌, ℕ, ◌+◌, ◌-◌, ◌^◌, ◌<◌, ◌≤◌, true, length, drop, if◌then◌else◌, Some, None, Ok, Err, MatchResult, nat_eq, slice_index};
ghost use Rattle.side.specs.Signals.{read_as, kind_of, contents_of};
ghost use Rattle.digits.specs.Dialling.{dialled};
ghost use Rattle.side.specs.declared.kinds.Reason.TheVariants.{BadValue, UnknownType};
ghost use Rattle.line_meaning.specs.Lines.{refusal, headed, event_kind, heard_as, digit_place, setup_read, body_read, reads};
ghost use Rattle.line.specs.Events.{kind_sent};
ghost use Rattle.line.specs.Reads.{signal_as};

use digits::{DigitFault, Digits};
use side::contents::{Bearer, Cause, Number, Reading, Setup, Signal};
use side::kinds::{Reason, Refusal, System};
use side::leg::Leg;
use side::parts::Parts;
use side::refusing::LONGEST;
use values::NumberType;

/// The place of the line's number.
const LINE: usize = 5;
/// The place of the event.
const EVENT: usize = 6;
/// The place of the count of digits.
const COUNT: usize = 7;
/// How many octets the head has; the digits stand behind it.
const HEAD: usize = 8;

/// Whether a message has a head.
fn has_head(message: &[u8]) -> bool
    ensures { result ≡ headed message.now }
{
    matches!(message, [b'L', b'I', b'N', 0x00, 0x01, _, _, _, ..]) && message.len() <= LONGEST
}

/// What a line sends.
#[derive(Clone, Copy)]
enum Sent {
    Setup,
    Alerting,
    Answer,
    Clear,
}

impl TryFrom<u8> for Sent {
    type Error = Refusal;

    ghost try_from_gives = { λ n r. MatchResult r (λ s. event_kind n ≡ Some (kind_sent s)) (λ e. (event_kind n ≡ None) × (e ≡ refusal UnknownType 6)) };

    fn try_from(event: u8) -> Result<Sent, Refusal> {
        match event {
            0x01 => Ok(Sent::Setup),
            0x02 => Ok(Sent::Alerting),
            0x03 => Ok(Sent::Answer),
            0x04 => Ok(Sent::Clear),
            _ => Err(System::Line.refuses(Reason::UnknownType, EVENT)),
        }
    }
}

/// The place of what is wrong with the digits.
fn digit_place(fault: DigitFault) -> usize
    requires { digit_place fault < 2 ^ 64 }
    ensures { result ≡ digit_place fault }
{
    match fault {
        DigitFault::NotADigit(k) => HEAD + k,
        DigitFault::NoDigits | DigitFault::TooMany => COUNT,
    }
}

/// What a setup says: its digits stand behind the head.
fn setup(message: &[u8]) -> Result<Signal, Refusal>
    requires { 8 ≤ length message.now }
    ensures { signal_as message.now result ≡ setup_read message.now (dialled (drop 8 message.now)) }
{
    // By cases: a wrong digit has a place because these digits have, which a closure would not know.
    match Digits::read(&message[HEAD..]) {
        Ok(digits) => Ok(Signal::Setup(Setup {
            bearer: Bearer::audio(),
            number: Number {
                kind: NumberType::Unknown,
                digits,
            },
            progress: None,
            isdn: false,
            parts: Parts::none(),
        })),
        Err(fault) => Err(System::Line.refuses(Reason::BadValue, digit_place(fault))),
    }
}

/// What the body of a message says; a setup alone has digits.
fn body(message: &[u8], event: Sent) -> Result<Signal, Refusal>
    requires { 8 ≤ length message.now }
    ensures { signal_as message.now result ≡ body_read message.now (kind_sent event) }
{
    match event {
        Sent::Setup => setup(message),
        _ if message[COUNT] != 0 => Err(System::Line.refuses(Reason::BadValue, COUNT)),
        Sent::Alerting => Ok(Signal::Alerting(None, false, Parts::none())),
        Sent::Answer => Ok(Signal::Answer(None, false, Parts::none())),
        Sent::Clear => Ok(Signal::Clear(Cause::normal(), Parts::none())),
    }
}

/// Reads a message to a side with so many lines.
pub fn read(legs: usize, message: &[u8]) -> Result<Reading, Refusal>
    ensures { read_as result ≡ reads legs message.now }
{
    if !has_head(message) {
        return Err(System::Line.refuses(Reason::Malformed, 0));
    }
    let event = Sent::try_from(message[EVENT])?;
    let no_leg = System::Line.refuses(Reason::NoSuchLeg, LINE);
    let leg = Leg::among(usize::from(message[LINE]), legs).ok_or(no_leg)?;
    if usize::from(message[COUNT]) != message.len() - HEAD {
        return Err(System::Line.refuses(Reason::Malformed, COUNT));
    }
    let signal = body(message, event)?;
    Ok(Reading {
        leg,
        heard: message[EVENT],
        signal,
    })
}
