//! Reads what a distant exchange sends.
ghost use Rattle.std.specs.Prelude.{◌≡◌, ℕ, not, ◌||◌, is_some, is_ok, IfOk, if◌then◌else◌, Some, None, slice_index};
ghost use Rattle.std.specs.Option as Options;
ghost use Rattle.values.specs.Bearers.{bearer_in};
ghost use Rattle.side.specs.Contents as side;
ghost use Rattle.side.specs.Signals as signals;
ghost use Rattle.side.specs.Signals.{read_as, bearer_of};
ghost use Rattle.side.specs.declared.kinds.Kind.TheVariants as kind;
ghost use Rattle.values.specs.Causes.{cause_in};
ghost use Rattle.carried.specs.Carried.{parts_of, bad_at, refused};
ghost use Rattle.isup_meaning.specs.Reading.{medium_bearer, number_in, there, five_of, parts_bad, progress_of, backward_isdn, party_says, judged, setup_read, complete_read, event_read, progress_read, release_read, body_read, reads};
ghost use Rattle.isup_reading.specs.Reads.{body_of, signal_as, bad_value, number_of};

use crate::codes::Event;
use crate::layout::Body;
use crate::message::{Message, TYPE};
use carried::both;
use digits::unpack;
use isup_meaning::types::MessageType;
use side::contents::{Bearer, Cause, Number, Progress, Reading, Setup, Signal};
use side::kinds::{Reason, Refusal, System};
use side::parts::Parts;
use values::NumberType;

/// The place of the second octet of forward indicators, in an initial address message.
const SECOND_FORWARD: usize = 5;
/// The place of the medium, in an initial address message.
const MEDIUM: usize = 7;
/// The place of the pointer to the number, in an initial address message.
const NUMBER: usize = 8;
/// The place of the first octet of backward indicators.
const FIRST_BACKWARD: usize = 3;
/// The place of the second octet of backward indicators.
const SECOND_BACKWARD: usize = 4;
// Two bits of an octet, of which this alone is looked for; an enum of them would have one variant in use.
/// The called party's status, in bits 4 and 3 of the first octet of backward indicators: subscriber free.
const SUBSCRIBER_FREE: u8 = 1;
/// The place of the event, in a call progress message.
const EVENT: usize = 3;

/// A bearer that is served.
fn served(octets: &[u8]) -> Option<Bearer>
    ensures { Options.option_map bearer_of result ≡ (if is_ok (bearer_in octets.now) then Some octets.now else None) }
{
    Bearer::read(octets).ok()
}

/// The bearer that a medium stands for.
fn medium_bearer(medium: u8) -> Option<Bearer>
    ensures { Options.option_map bearer_of result ≡ medium_bearer medium }
{
    match medium {
        0x00 => served(&[0x80, 0x90, 0xA3]),
        0x02 => served(&[0x88, 0x90]),
        0x03 => Some(Bearer::audio()),
        _ => None,
    }
}

/// A called number: nature of address, with bit 8 set for an odd count of signals; an octet that is ignored; the
/// signals.
fn called_number(field: &[u8]) -> Option<Number>
    ensures { Options.option_map number_of result ≡ number_in field.now }
{
    let [nature, _plan, signals @ ..] = field else {
        return None;
    };
    let kind = NumberType::from_nature(*nature % 128)?;
    let digits = unpack(signals, *nature >= 128).ok()?;
    Some(Number { kind, digits })
}

/// What an event of progress says: progress, if an indicator came with it, else nothing.
fn progress_event(progress: Option<Progress>) -> Result<Signal, Refusal>
    ensures { signal_as result ≡ event_read (Options.option_map signals.progress_of progress) }
{
    Ok(progress.map_or(Signal::Quiet, |progress| Signal::Progress(progress, true)))
}

impl Body<'_> {
    /// The medium is refused at its place.
    fn medium(self) -> Result<Bearer, Refusal>
        ensures bad { refused result ≡ bad_value (bad_at (is_some (medium_bearer (slice_index (body_of self.entry).octets 7))) 7) }
        ensures value { IfOk result (λ b. Some (bearer_of b) ≡ medium_bearer (slice_index (body_of self.entry).octets 7)) }
    {
        let refusal = System::Isup.refuses(Reason::BadValue, MEDIUM);
        medium_bearer(self.message.octet(MEDIUM)).ok_or(refusal)
    }

    /// The number is refused at its pointer.
    fn number(self) -> Result<Number, Refusal>
        ensures bad { refused result ≡ bad_value (bad_at (is_some (number_in (body_of self.entry).field)) 8) }
        ensures value { IfOk result (λ n. Some (number_of n) ≡ number_in (body_of self.entry).field) }
    {
        called_number(self.field).ok_or(System::Isup.refuses(Reason::BadValue, NUMBER))
    }

    /// A bearer that came is refused at its tag.
    fn bearer(self) -> Result<Option<Bearer>, Refusal>
        ensures bad { refused result ≡ bad_value (bad_at (not (there (body_of self.entry).bearer) || is_ok (bearer_in (body_of self.entry).bearer)) (body_of self.entry).bearer_at) }
        ensures value { IfOk result (λ b. Options.option_map bearer_of b ≡ (if there (body_of self.entry).bearer then Some (body_of self.entry).bearer else None)) }
    {
        if self.bearer.contents.is_empty() {
            return Ok(None);
        }
        let bearer = served(self.bearer.contents).ok_or(System::Isup.refuses(
            Reason::BadValue,
            self.bearer.place,
        ))?;
        Ok(Some(bearer))
    }

    // One in each reader: the system that refuses differs, and so does the value that knows the place.
    /// The carried parts, refused at place 0 or at user-user's tag.
    fn parts(self) -> Result<Parts, Refusal>
        ensures bad { refused result ≡ bad_value (parts_bad (body_of self.entry)) }
        ensures value { IfOk result (λ p. side.parts_of p ≡ parts_of (five_of (body_of self.entry))) }
    {
        carried::parts(self.access.contents, Some(self.user.contents)).map_err(|fault| {
            System::Isup.refuses(
                Reason::BadValue,
                carried::refused_at(fault, self.user.place),
            )
        })
    }

    /// What a setup says: it needs a number of at least two octets.
    fn setup(self) -> Result<Signal, Refusal>
        ensures { signal_as result ≡ setup_read (body_of self.entry) }
    {
        if self.field.len() < 2 {
            return Err(System::Isup.refuses(Reason::Missing, 0));
        }
        let (medium, (number, (bearer, parts))) = both(
            self.medium(),
            both(self.number(), both(self.bearer(), self.parts())),
        )?;
        Ok(Signal::Setup(Setup {
            bearer: bearer.unwrap_or(medium),
            number,
            progress: self.progress(),
            isdn: self.message.octet(SECOND_FORWARD) % 2 == 1,
            parts,
        }))
    }

    // Two functions: each is two lines, and a helper that takes the constructor would be a third.
    // The parts first: where they are refused nothing else is looked for.
    /// What a message says that rings the called party.
    fn alerting(self, isdn: bool) -> Result<Signal, Refusal>
        ensures { signal_as result ≡ judged (parts_bad (body_of self.entry)) kind.Alerting (party_says isdn (body_of self.entry)) }
    {
        let parts = self.parts()?;
        Ok(Signal::Alerting(self.progress(), isdn, parts))
    }

    /// What a message says by which the called party answers.
    fn answer(self, isdn: bool) -> Result<Signal, Refusal>
        ensures { signal_as result ≡ judged (parts_bad (body_of self.entry)) kind.Answer (party_says isdn (body_of self.entry)) }
    {
        let parts = self.parts()?;
        Ok(Signal::Answer(self.progress(), isdn, parts))
    }

    /// Progress in access transport.
    fn progress(self) -> Option<Progress>
        ensures { Options.option_map signals.progress_of result ≡ progress_of (body_of self.entry) }
    {
        carried::progress(self.access.contents)
    }

    /// The ISDN indicator of a message that goes backward.
    fn backward_isdn(self) -> bool
        ensures { result ≡ backward_isdn (body_of self.entry) }
    {
        self.message.octet(SECOND_BACKWARD) / 16 % 2 == 1
    }

    /// An address complete message rings if the subscriber is free.
    fn complete(self) -> Result<Signal, Refusal>
        ensures { signal_as result ≡ complete_read (body_of self.entry) }
    {
        let isdn = self.backward_isdn();
        if self.message.octet(FIRST_BACKWARD) / 4 % 4 == SUBSCRIBER_FREE {
            self.alerting(isdn)
        } else {
            Ok(Signal::Complete(self.progress(), isdn))
        }
    }

    /// A call progress message says what its event is; in-band information is progress whatever indicator came.
    fn event(self) -> Result<Signal, Refusal>
        ensures { signal_as result ≡ progress_read (body_of self.entry) }
    {
        match Event::try_from(self.message.octet(EVENT) % 128) {
            Ok(Event::Alerting) => self.alerting(true),
            Ok(Event::Progress) => progress_event(self.progress()),
            Ok(Event::InBand) => Ok(Signal::Progress(
                Progress {
                    location: 0x82,
                    description: 0x88,
                },
                true,
            )),
            Err(_) => Err(System::Isup.refuses(Reason::BadValue, EVENT)),
        }
    }

    /// A release needs a whole cause.
    fn release(self) -> Result<Signal, Refusal>
        ensures { signal_as result ≡ release_read (cause_in (body_of self.entry).field) (body_of self.entry) }
    {
        let cause = Cause::read(self.field).ok_or(System::Isup.refuses(Reason::Missing, 0))?;
        Ok(Signal::Clear(cause, self.parts()?))
    }

    /// What the body of a message says.
    fn signal(self, kind: MessageType) -> Result<Signal, Refusal>
        ensures { signal_as result ≡ body_read kind (body_of self.entry) }
    {
        match kind {
            MessageType::InitialAddress => self.setup(),
            MessageType::AddressComplete => self.complete(),
            MessageType::Connect => self.answer(self.backward_isdn()),
            MessageType::Answer => self.answer(true),
            MessageType::CallProgress => self.event(),
            MessageType::Release => self.release(),
            MessageType::ReleaseComplete => Ok(Signal::Down),
        }
    }
}

/// Reads a message to a side with so many circuits.
pub fn read(legs: usize, message: &[u8]) -> Result<Reading, Refusal>
    ensures { read_as result ≡ reads legs message.now }
{
    let message = Message::new(message)?;
    let kind = message.kind()?;
    let leg = message.leg(legs)?;
    let body = Body::whole(message, kind)?;
    let signal = body.signal(kind)?;
    Ok(Reading {
        leg,
        heard: message.octet(TYPE),
        signal,
    })
}
