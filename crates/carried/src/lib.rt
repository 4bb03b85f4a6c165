//! Progress and the carried parts, read from a list of DSS 1 elements: the body of a DSS 1 message, or what
//! access transport holds on a trunk.
#![tactic(auto)]

ghost use Rattle.std.specs.Prelude.{◌≡◌, ℕ, ◌+◌, ◌≤◌, cond, length, Some, None, MatchResult};
ghost use Rattle.std.specs.Option as Options;
ghost use Rattle.entries.specs.Codings.{dss1};
ghost use Rattle.entries.specs.Entries.{found};
ghost use Rattle.held.specs.Held.{octets_of};
ghost use Rattle.side.specs.Contents as side;
ghost use Rattle.side.specs.Signals as signals;
ghost use Rattle.side.specs.Contents.{came};
ghost use Rattle.carried.specs.Carried.{five_in, parts_of, fault_of, progress_in, sooner, first_of, both, parts_bad_at, progress_octets, cause_octets};

use elements::Dss1;
use held::Held;
use side::contents::{Cause, Progress};
use side::kinds::{PartsFault, Refusal};
use side::parts::Parts;

// Tags are octets and no enum: a list may hold any tag, and one that is not known is passed over.
/// The tag of a progress indicator.
pub const PROGRESS: u8 = 0x1E;
/// The tag of the calling party's subaddress.
pub const CALLING: u8 = 0x6D;
/// The tag of the called party's subaddress.
pub const CALLED: u8 = 0x71;
/// The tag of the low layer compatibility.
pub const LOW: u8 = 0x7C;
/// The tag of the high layer compatibility.
pub const HIGH: u8 = 0x7D;
/// The tag of user-user.
pub const USER_USER: u8 = 0x7E;

/// Bit 8 of an octet after which its group does not go on.
const LAST: u8 = 0x80;

/// An octet that stands for nothing in its code: for no type of message, or for no event.
#[derive(Clone, Copy, PartialEq, Eq, Debug)]
pub struct UnknownOctet(pub u8);

/// The progress in a list, if it is there and not cut short.
pub fn progress(list: &[u8]) -> Option<Progress>
    ensures { Options.option_map signals.progress_of result ≡ progress_in list.now }
{
    Progress::read(elements::contents::<Dss1>(list, PROGRESS)?)
}

/// The parts in a list, with the user-user that was found beside it.
pub fn parts(list: &[u8], user: Option<&[u8]>) -> Result<Parts, PartsFault>
    ensures { MatchResult result (λ p. (fault_of (five_in list.now (came user.entry)) ≡ None) × (side.parts_of p ≡ parts_of (five_in list.now (came user.entry)))) (λ e. fault_of (five_in list.now (came user.entry)) ≡ Some e) }
{
    Parts::new(
        elements::contents::<Dss1>(list, CALLING),
        elements::contents::<Dss1>(list, CALLED),
        elements::contents::<Dss1>(list, LOW),
        elements::contents::<Dss1>(list, HIGH),
        user,
    )
}

/// Progress as it is written, if there is one.
pub fn progress_octets(progress: Option<Progress>) -> Held<2>
    ensures { octets_of result ≡ progress_octets (Options.option_map signals.progress_of progress) }
{
    match progress {
        Some(progress) => Held::of(&[progress.location, progress.description]).unwrap(),
        None => Held::none(),
    }
}

/// A cause as it is written: location and value, each the last octet of its group.
pub fn cause_octets(cause: Cause) -> Held<2>
    ensures { octets_of result ≡ cause_octets (Some (signals.cause_of cause)) }
{
    Held::of(&[LAST + cause.location(), LAST + cause.value()]).unwrap()
}

// Over places alone; of refusals `both` tells the one at the smaller place.
/// Of two places the smaller.
pub fn sooner(a: Option<usize>, b: Option<usize>) -> Option<usize>
    ensures { result ≡ sooner a b }
{
    match (a, b) {
        (Some(a), Some(b)) => Some(a.min(b)),
        (a, b) => a.or(b),
    }
}

/// Of two refusals the one at the smaller place, the first of two at one place.
fn first_of(a: Refusal, b: Refusal) -> Refusal
    ensures { result ≡ first_of a b }
{
    // Not `min_by_key`: its closure would say the same at more length.
    if a.place <= b.place { a } else { b }
}

/// Both values, or the refusal at the smaller place, the first of two at one place.
pub fn both<A: Copy, B: Copy>(
    a: Result<A, Refusal>,
    b: Result<B, Refusal>,
) -> Result<(A, B), Refusal>
    ensures { result ≡ both a b }
{
    match (a, b) {
        (Err(a), Err(b)) => Err(first_of(a, b)),
        (a, b) => Ok((a?, b?)),
    }
}

/// Where parts outside their limits are refused: at place 0 for their total, at user-user's place for that.
pub fn refused_at(fault: PartsFault, user_at: usize) -> usize
    ensures { Some result ≡ parts_bad_at (Some fault) user_at }
{
    match fault {
        PartsFault::TotalOver => 0,
        PartsFault::UserUserOver => user_at,
    }
}
