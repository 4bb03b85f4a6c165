//! Reads a message: protocol 08, length of the reference, reference, type, and a list of elements.
ghost use Rattle.std.specs.Prelude.{◌≡◌, ℕ, IfOk, Some};
ghost use Rattle.side.specs.Contents as side;
ghost use Rattle.side.specs.Signals.{bearer_of, noted, read_as};
ghost use Rattle.carried.specs.Carried.{parts_of, refused};
ghost use Rattle.carried.specs.Messages.{number_of, signal_as};
ghost use Rattle.dss1_meaning.specs.Dss1.{headed, body_in, number_in, setup_read, proceeding_read, progress_read, body_read, reads};
ghost use Rattle.dss1_reading.specs.Reads.{setup_fault};

use crate::list::{Body, HEAD};
use crate::octets::{BEARER, NUMBER, PROTOCOL, REFERENCE_LENGTH};
use crate::reference::leg_of;
use carried::both;
use dss1_meaning::types::MessageType;
use side::contents::{Bearer, Number, Reading, Setup, Signal};
use side::kinds::{Reason, Refusal, System};
use side::parts::Parts;
use side::refusing::LONGEST;

/// The place of the reference.
const REFERENCE: usize = 2;
/// The place of the type.
const TYPE: usize = 3;

/// Progress: the calling end is no ISDN.
const ORIGIN_NO_ISDN: u8 = 3;
/// Progress: the call has come back to an ISDN.
const BACK_IN_ISDN: u8 = 4;
/// Progress: what is going on can be heard.
const IN_BAND: u8 = 8;

/// Whether a message has a head.
fn has_head(message: &[u8]) -> bool
    ensures { result ≡ headed message.now }
{
    (HEAD..=LONGEST).contains(&message.len()) && message.starts_with(&[PROTOCOL, REFERENCE_LENGTH])
}

impl Body<'_> {
    // Apart from setup: which of several refusals is told is a promise of its own.
    /// The values of a setup, or of their refusals the one at the smallest place.
    fn setup_values(self) -> Result<(Bearer, (Number, Parts)), Refusal>
        ensures bad { refused result ≡ setup_fault (body_in self.entry.octets.now) }
        ensures are { IfOk result (λ v. (bearer_of v.0 ≡ (body_in self.entry.octets.now).bearer) × (Some (number_of v.1.0) ≡ number_in (body_in self.entry.octets.now).number) × (side.parts_of v.1.1 ≡ parts_of (body_in self.entry.octets.now).parts)) }
    {
        both(self.bearer(), both(self.number(), self.parts()))
    }

    /// What a setup says: it needs a bearer and a number.
    fn setup(self) -> Result<Signal, Refusal>
        ensures { signal_as result ≡ setup_read (body_in self.entry.octets.now) }
    {
        if self.found(BEARER).is_empty() || self.found(NUMBER).is_empty() {
            return Err(System::Dss1.refuses(Reason::Missing, 0));
        }
        let (bearer, (number, parts)) = self.setup_values()?;
        Ok(Signal::Setup(Setup {
            bearer,
            number,
            progress: self.progress(),
            isdn: true,
            parts,
        }))
    }

    /// What it says that a call proceeds: with a description other than 3, 4 and 8 it is in progress.
    fn proceeding(self) -> Result<Signal, Refusal>
        ensures { signal_as result ≡ proceeding_read (noted (body_in self.entry.octets.now).progress) }
    {
        let Some(progress) = self.progress() else {
            return Ok(Signal::Complete(None, true));
        };
        match progress.described() {
            ORIGIN_NO_ISDN | BACK_IN_ISDN | IN_BAND => Ok(Signal::Complete(Some(progress), true)),
            _ => Ok(Signal::Progress(progress, true)),
        }
    }

    /// What progress says: it needs its indicator, and with description 3 or 8 it is no news to the other party.
    fn in_progress(self) -> Result<Signal, Refusal>
        ensures { signal_as result ≡ progress_read (noted (body_in self.entry.octets.now).progress) }
    {
        let progress = self
            .progress()
            .ok_or(System::Dss1.refuses(Reason::Missing, 0))?;
        match progress.described() {
            ORIGIN_NO_ISDN | IN_BAND => Ok(Signal::Quiet),
            _ => Ok(Signal::Progress(progress, true)),
        }
    }

    /// What a message of a type says.
    fn signal(self, message: MessageType) -> Result<Signal, Refusal>
        ensures { signal_as result ≡ body_read message (body_in self.entry.octets.now) }
    {
        match message {
            // The parts first: where they are refused nothing else is looked for.
            MessageType::Alerting => {
                let parts = self.parts()?;
                Ok(Signal::Alerting(self.progress(), true, parts))
            }
            MessageType::CallProceeding => self.proceeding(),
            MessageType::Progress => self.in_progress(),
            MessageType::Setup => self.setup(),
            MessageType::Connect => {
                let parts = self.parts()?;
                Ok(Signal::Answer(self.progress(), true, parts))
            }
            MessageType::ConnectAcknowledge => Ok(Signal::Quiet),
            MessageType::Disconnect | MessageType::Release | MessageType::ReleaseComplete => {
                let parts = self.parts()?;
                Ok(Signal::Clear(self.cause(), parts))
            }
        }
    }
}

/// Reads a message to a side with so many legs.
pub fn read(legs: usize, message: &[u8]) -> Result<Reading, Refusal>
    ensures { read_as result ≡ reads legs message.now }
{
    if !has_head(message) {
        return Err(System::Dss1.refuses(Reason::Malformed, 0));
    }
    let message_type = MessageType::try_from(message[TYPE]).map_err(|_| System::Dss1.refuses(
        Reason::UnknownType,
        TYPE,
    ))?;
    let leg = leg_of(message[REFERENCE], message_type, legs).ok_or(System::Dss1.refuses(
        Reason::NoSuchLeg,
        REFERENCE,
    ))?;
    let body = Body {
        octets: &message[HEAD..],
    };
    body.check()?;
    let signal = body.signal(message_type)?;
    Ok(Reading {
        leg,
        heard: message[TYPE],
        signal,
    })
}
