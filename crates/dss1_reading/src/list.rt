//! The list of a message's elements, and the values that are read from it.
ghost use Rattle.std.specs.Prelude.{◌≡◌, ℕ, ◌≤◌, length, is_some, is_ok, IfOk, Some, ok_or};
ghost use Rattle.std.specs.Option.{option_map};
ghost use Rattle.elements.specs.Elements.{checked};
ghost use Rattle.entries.specs.Codings.{dss1};
ghost use Rattle.entries.specs.Entries as entries;
ghost use Rattle.values.specs.Bearers.{bearer_in};
ghost use Rattle.values.specs.Causes.{cause_in};
ghost use Rattle.side.specs.declared.kinds.Reason.TheVariants.{BadValue};
ghost use Rattle.side.specs.Contents as side;
ghost use Rattle.side.specs.Signals.{bearer_of, cause_of, noted, progress_of};
ghost use Rattle.carried.specs.Carried.{parts_of, tag_place, bad_at, refused};
ghost use Rattle.carried.specs.Messages.{number_of};
ghost use Rattle.dss1_meaning.specs.Dss1.{refusal, body_in, number_in, cause_or, parts_bad};
ghost use Rattle.dss1_reading.specs.Reads.{list_fault};

use crate::octets::{BEARER, CAUSE, NUMBER};
use carried::USER_USER;
use digits::Digits;
use elements::Dss1;
use side::contents::{Bearer, Cause, Number, Progress};
use side::kinds::{Layer, Reason, Refusal, System};
use side::parts::Parts;

/// How many octets the head of a message has; the list stands behind it.
pub(crate) const HEAD: usize = 4;

/// The list of a message's elements.
#[derive(Clone, Copy)]
pub(crate) struct Body<'a> {
    pub(crate) octets: &'a [u8],
    ghost short: { length octets.now ≤ 251 },
}

/// The called number that an element holds: its type in the first octet, the digits behind it.
fn called_number(contents: &[u8]) -> Option<Number>
    ensures { option_map number_of result ≡ number_in contents.now }
{
    let [first, text @ ..] = contents else {
        return None;
    };
    let kind = values::number_type(*first)?;
    let digits = Digits::read(text).ok()?;
    Some(Number { kind, digits })
}

impl<'a> Body<'a> {
    // Empty for what is not there: an element without contents counts as not there either.
    /// What an element holds; one that is not there holds nothing.
    pub(crate) fn found(self, tag: u8) -> &'a [u8]
        ensures { result.now ≡ entries.found dss1 tag self.entry.octets.now }
    {
        elements::contents::<Dss1>(self.octets, tag).unwrap_or(&[])
    }

    /// The place of an element's tag in the message.
    fn place_of(self, tag: u8) -> usize
        ensures { result ≡ tag_place dss1 4 tag self.entry.octets.now }
    {
        HEAD + elements::find::<Dss1>(self.octets, tag).unwrap_or(0)
    }

    /// A value, or its refusal at an element's tag.
    fn or_refuse<T: Copy>(self, value: Option<T>, tag: u8) -> Result<T, Refusal>
        ensures { result ≡ ok_or value (refusal BadValue (tag_place dss1 4 tag self.entry.octets.now)) }
    {
        // The place costs a walk of the list, so it is looked for only where the value is refused; ok_or would look
        // always, and what a closure of ok_or_else found was not known to the proof.
        match value {
            Some(value) => Ok(value),
            None => Err(System::Dss1.refuses(Reason::BadValue, self.place_of(tag))),
        }
    }

    /// Whether the list is whole: an element that breaks off is refused at its tag.
    pub(crate) fn check(self) -> Result<(), Refusal>
        ensures { refused result ≡ list_fault (checked dss1 self.entry.octets.now) }
    {
        let Err(fault) = elements::check::<Dss1>(self.octets) else {
            return Ok(());
        };
        let place = HEAD + fault.place();
        Err(Refusal {
            layer: Layer::List,
            ..System::Dss1.refuses(Reason::Malformed, place)
        })
    }

    /// The bearer capability.
    pub(crate) fn bearer(self) -> Result<Bearer, Refusal>
        ensures bad { refused result ≡ option_map (refusal BadValue) (bad_at (is_ok (bearer_in (body_in self.entry.octets.now).bearer)) (body_in self.entry.octets.now).bearer_at) }
        ensures is { IfOk result (λ b. bearer_of b ≡ (body_in self.entry.octets.now).bearer) }
    {
        self.or_refuse(Bearer::read(self.found(BEARER)).ok(), BEARER)
    }

    /// The called number.
    pub(crate) fn number(self) -> Result<Number, Refusal>
        ensures bad { refused result ≡ option_map (refusal BadValue) (bad_at (is_some (number_in (body_in self.entry.octets.now).number)) (body_in self.entry.octets.now).number_at) }
        ensures is { IfOk result (λ n. Some (number_of n) ≡ number_in (body_in self.entry.octets.now).number) }
    {
        self.or_refuse(called_number(self.found(NUMBER)), NUMBER)
    }

    // One in each reader: the system that refuses differs, and so does the value that knows the place.
    /// The carried parts.
    pub(crate) fn parts(self) -> Result<Parts, Refusal>
        ensures bad { refused result ≡ option_map (refusal BadValue) (parts_bad (body_in self.entry.octets.now)) }
        ensures are { IfOk result (λ p. side.parts_of p ≡ parts_of (body_in self.entry.octets.now).parts) }
    {
        match carried::parts(self.octets, Some(self.found(USER_USER))) {
            Ok(parts) => Ok(parts),
            // The place only here, and in no closure, as in or_refuse.
            Err(fault) => {
                let place = carried::refused_at(fault, self.place_of(USER_USER));
                Err(System::Dss1.refuses(Reason::BadValue, place))
            }
        }
    }

    /// The progress.
    pub(crate) fn progress(self) -> Option<Progress>
        ensures { option_map progress_of result ≡ noted (body_in self.entry.octets.now).progress }
    {
        carried::progress(self.octets)
    }

    /// The cause; without one, or with one that is cut short, the call ends for no reason that is told.
    pub(crate) fn cause(self) -> Cause
        ensures { cause_of result ≡ cause_or (cause_in (body_in self.entry.octets.now).cause) }
    {
        Cause::read(self.found(CAUSE)).unwrap_or(Cause::unspecified())
    }
}
