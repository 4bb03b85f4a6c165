ghost use Rattle.std.specs.Prelude.{◌≡◌, ℕ, ◌<◌, ◌≤◌, ◌&&◌, [], ◌∷◌, length, if◌then◌else◌, Some, None, Ok, Err, MatchResult, nat_lt};
ghost use Rattle.std.specs.Option as Options;
ghost use Rattle.values.specs.Bearers.{bearer_in};
ghost use Rattle.values.specs.Causes.{cause_in};
ghost use Rattle.side.specs.Signals.{bearer_of, kind_of, contents_of, cause_of, progress_of, noted, described};
ghost use Rattle.side.specs.Meaning.{AllWithin};

use super::{Bearer, Cause, Progress, Signal};
use crate::kinds::Kind;
use values::{BearerFault, Capability};

impl Bearer {
    /// Reads a bearer capability, if it is served.
    pub fn read(contents: &[u8]) -> Result<Bearer, BearerFault>
        ensures { MatchResult result (λ b. bearer_of b ≡ contents.now) (λ e. bearer_in contents.now ≡ Err e) }
    {
        let capability = values::bearer(contents)?;
        let count = contents.len();
        let mut octets = [0u8; 11];
        octets[..count].copy_from_slice(contents);
        Ok(Bearer {
            octets,
            count,
            capability,
        })
    }

    /// 3.1 kHz audio, as a telephone line needs it.
    pub fn audio() -> Bearer
        ensures { bearer_of result ≡ 0x90 ∷ 0x90 ∷ 0xA3 ∷ [] }
    {
        let octets = [0x90, 0x90, 0xA3, 0, 0, 0, 0, 0, 0, 0, 0];
        Bearer {
            octets,
            count: 3,
            capability: Capability::Audio,
        }
    }

    /// Its octets.
    pub fn as_octets(&self) -> &[u8]
        ensures { result.now ≡ bearer_of self.now }
    {
        &self.octets[..self.count]
    }

    /// What it asks the connection to carry.
    pub fn capability(&self) -> Capability
        ensures { bearer_in (bearer_of self.now) ≡ Ok result }
    {
        self.capability
    }
}

impl Cause {
    /// A cause, if both numbers are in their range.
    pub fn new(location: u8, value: u8) -> Option<Cause>
        ensures { Options.option_map cause_of result ≡ (if nat_lt location 16 && nat_lt value 128 then Some (location, value) else None) }
    {
        if location < 16 && value < 128 {
            Some(Cause { location, value })
        } else {
            None
        }
    }

    /// The cause that the contents of an element say, or `None` where they are cut short.
    pub fn read(contents: &[u8]) -> Option<Cause>
        ensures { Options.option_map cause_of result ≡ cause_in contents.now }
    {
        let (location, value) = values::cause(contents)?;
        Cause::new(location, value)
    }

    /// Where it arose.
    pub fn location(self) -> u8
        ensures is { result ≡ (cause_of self).0 }
        ensures range { result < 16 }
    {
        self.location
    }

    /// Why the call ends.
    pub fn value(self) -> u8
        ensures is { result ≡ (cause_of self).1 }
        ensures range { result < 128 }
    {
        self.value
    }

    /// What a clearing without a cause means: location 0, value 31.
    pub fn unspecified() -> Cause
        ensures { cause_of result ≡ (0, 31) }
    {
        Cause {
            location: 0,
            value: 31,
        }
    }

    /// Normal clearing by the party: location 0, value 16.
    pub fn normal() -> Cause
        ensures { cause_of result ≡ (0, 16) }
    {
        Cause {
            location: 0,
            value: 16,
        }
    }
}

impl Progress {
    /// The progress indicator that the contents of an element hold, or `None` where they are cut short.
    pub fn read(contents: &[u8]) -> Option<Progress>
        ensures { Options.option_map progress_of result ≡ noted contents.now }
    {
        match contents {
            &[location, description, ..] => Some(Progress {
                location,
                description,
            }),
            _ => None,
        }
    }

    /// What it describes: 8 is in-band information, 3 and 4 ends of the call that are or were not ISDN.
    pub fn described(self) -> u8
        ensures { result ≡ described (progress_of self) }
    {
        self.description % 128
    }
}

impl Signal {
    /// Its kind.
    pub fn kind(&self) -> Kind
        ensures { result ≡ kind_of self.now }
    {
        match self {
            Signal::Setup(..) => Kind::Setup,
            Signal::Complete(..) => Kind::Complete,
            Signal::Progress(..) => Kind::Progress,
            Signal::Alerting(..) => Kind::Alerting,
            Signal::Answer(..) => Kind::Answer,
            Signal::Quiet => Kind::Quiet,
            Signal::Clear(..) => Kind::Clear,
            Signal::Down => Kind::Down,
        }
    }
}

/// Whatever a signal says is within the limits of its kind: others cannot be made.
pub fn contents_are_within_limits()
    ensures { AllWithin }
{}
