//! Progress, causes and numbers as octets, held by value until the message is written.
ghost use Rattle.std.specs.Prelude.{◌≡◌, ℕ, ◌≤◌, length, Some, ◌==◌};
ghost use Rattle.std.specs.Option.{option_map};
ghost use Rattle.held.specs.Held.{octets_of};
ghost use Rattle.side.specs.Signals.{progress_of, cause_of, described};
ghost use Rattle.carried.specs.Carried.{progress_octets, cause_octets};
ghost use Rattle.carried.specs.Messages.{number_of};
ghost use Rattle.isup_meaning.specs.Writing.{but_in_band, number_field, odd_bit};
ghost use Rattle.isup.specs.Writes.{with_length};

use held::Held;
use side::contents::{Cause, Number, Progress};

/// The most octets of a field: a number's length, its two leading octets and its signals.
const MOST: usize = 14;
/// What progress describes as in-band information, which is never said in access transport.
const IN_BAND: u8 = 8;
/// The numbering plan of every number.
const TELEPHONY: u8 = 0x10;
/// Where a number's signals begin: behind its length, its nature of address and its plan.
const SIGNALS: usize = 3;

/// Whether progress is in-band information.
pub(crate) fn is_in_band(progress: Progress) -> bool
    ensures { result ≡ (described (progress_of progress) == 8) }
{
    progress.described() == IN_BAND
}

/// The octets of progress, if it is said.
pub(crate) fn progress_octets(progress: Option<Progress>) -> Held<2>
    ensures { octets_of result ≡ progress_octets (but_in_band (option_map progress_of progress)) }
{
    match progress {
        Some(progress) if is_in_band(progress) => Held::none(),
        said => carried::progress_octets(said),
    }
}

/// A cause with its length.
pub(crate) fn cause_field(cause: Cause) -> Held<14>
    ensures { octets_of result ≡ with_length (cause_octets (Some (cause_of cause))) }
{
    let length: Held<14> = Held::of(&[2]).unwrap();
    length
        .then(carried::cause_octets(cause).as_octets())
        .unwrap()
}

/// The bit that tells an odd count of signals.
fn odd_bit(odd: bool) -> u8
    ensures { result ≡ odd_bit odd }
{
    if odd { 128 } else { 0 }
}

/// A number with its length: nature of address with the odd bit, plan, signals.
pub(crate) fn number_field(number: &Number) -> Held<14>
    ensures { octets_of result ≡ with_length (number_field (Some (number_of number.now))) }
{
    let mut octets = [0u8; MOST];
    // Eleven octets hold the signals of every number.
    let signals = number.digits.pack(&mut octets[SIGNALS..]).unwrap();
    octets[0] = 2 + signals as u8;
    octets[1] = number.kind.nature() + odd_bit(number.digits.signals_odd());
    octets[2] = TELEPHONY;
    Held::of(&octets[..SIGNALS + signals]).unwrap()
}
