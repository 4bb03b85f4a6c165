ghost use Rattle.std.specs.Prelude.{◌≡◌, ℕ, ◌%◌, ◌<◌, ◌≤◌, length, slice_index};
ghost use Rattle.side.specs.Limits.{capability_code};

mod making;

use crate::leg::Leg;
use crate::parts::Parts;
use digits::Digits;
pub use making::contents_are_within_limits;
use values::{Capability, NumberType};

/// A bearer capability that is served: 2 to 11 octets.
// An array of fixed size: readings are copied, and nothing is allocated for them.
// Not `Held`: there is more to say of these octets, for the first one names the capability.
#[derive(Clone, Copy)]
pub struct Bearer {
    octets: [u8; 11],
    count: usize,
    capability: Capability,
    ghost room: { length octets ≡ 11 },
    ghost least: { 2 ≤ count },
    ghost most: { count ≤ 11 },
    ghost served: { slice_index octets 0 % 32 ≡ capability_code capability },
}

/// A called number: 1 to 20 digits and how they are to be understood.
#[derive(Clone, Copy)]
pub struct Number {
    pub kind: NumberType,
    pub digits: Digits,
}

/// Where a call's progress was noted, and what: the two octets of a progress indicator.
#[derive(Clone, Copy, PartialEq, Eq, Debug)]
pub struct Progress {
    pub location: u8,
    pub description: u8,
}

/// Why a call ends: a location of four bits and a value of seven.
#[derive(Clone, Copy)]
pub struct Cause {
    location: u8,
    value: u8,
    ghost place: { location < 16 },
    ghost range: { value < 128 },
}

/// What a setup says.
#[derive(Clone, Copy)]
pub struct Setup {
    pub bearer: Bearer,
    pub number: Number,
    pub progress: Option<Progress>,
    /// Whether the call comes from an ISDN.
    pub isdn: bool,
    pub parts: Parts,
}

// What a called party says is three fields and no struct of its own: wherever it is told they come apart again.
/// A kind with its contents: what one message says, whatever the signalling system.
#[derive(Clone, Copy)]
pub enum Signal {
    Setup(Setup),
    /// Progress if any came, and whether the access is ISDN.
    Complete(Option<Progress>, bool),
    Progress(Progress, bool),
    Alerting(Option<Progress>, bool, Parts),
    Answer(Option<Progress>, bool, Parts),
    Quiet,
    Clear(Cause, Parts),
    Down,
}

/// What a message was read as: the leg that it concerns, its type octet, and what it says.
#[derive(Clone, Copy)]
pub struct Reading {
    pub leg: Leg,
    // An octet: each system has types of its own, and a reading is one type for all of them.
    pub heard: u8,
    pub signal: Signal,
}
