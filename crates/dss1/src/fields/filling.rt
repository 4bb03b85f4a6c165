ghost use Rattle.std.specs.Prelude.{◌≡◌, [], Some};
ghost use Rattle.std.specs.Option.{option_map};
ghost use Rattle.carried.specs.Carried.{progress_octets, cause_octets};
ghost use Rattle.side.specs.Contents.{parts_of};
ghost use Rattle.side.specs.Signals.{bearer_of, progress_of, cause_of};
ghost use Rattle.dss1_meaning.specs.Dss1.{table, or_noted, number_octets};
ghost use Rattle.dss1_reading.specs.Reads.{number_of};
ghost use Rattle.dss1.specs.Fields.{table_of};

use super::Fields;
use super::making::{bearer_octets, number_octets};
use carried::{cause_octets, progress_octets};
use held::Held;
use side::contents::{Cause, Progress, Setup};
use side::parts::Parts;

/// What the party is told of a calling end that is no ISDN.
const ORIGIN_NO_ISDN: Progress = Progress {
    location: 0x82,
    description: 0x83,
};
/// What the party is told of a called end that is no ISDN.
const DESTINATION_NO_ISDN: Progress = Progress {
    location: 0x82,
    description: 0x82,
};

/// The progress that came; where none came, that of a party that is no ISDN.
fn noted_or(progress: Option<Progress>, isdn: bool, other: Progress) -> Option<Progress>
    ensures { option_map progress_of result ≡ or_noted (option_map progress_of progress) isdn (progress_of other) }
{
    progress.or(if isdn { None } else { Some(other) })
}

impl Fields {
    /// Nothing.
    pub fn none() -> Fields
        ensures { table_of result ≡ table [] [] [] [] [] }
    {
        Fields {
            bearer: Held::none(),
            cause: Held::none(),
            progress: Held::none(),
            number: Held::none(),
            parts: Parts::none(),
        }
    }

    /// The elements of a setup.
    pub fn setup(setup: &Setup) -> Fields
        ensures { table_of result ≡ table (bearer_of setup.now.bearer) [] (progress_octets (or_noted (option_map progress_of setup.now.progress) setup.now.isdn (0x82, 0x83))) (number_octets (Some (number_of setup.now.number))) (parts_of setup.now.parts) }
    {
        Fields {
            bearer: bearer_octets(&setup.bearer),
            progress: progress_octets(noted_or(setup.progress, setup.isdn, ORIGIN_NO_ISDN)),
            number: number_octets(&setup.number),
            parts: setup.parts,
            ..Fields::none()
        }
    }

    /// Progress alone, if there is one.
    pub fn progress(progress: Option<Progress>) -> Fields
        ensures { table_of result ≡ table [] [] (progress_octets (option_map progress_of progress)) [] [] }
    {
        Fields {
            progress: progress_octets(progress),
            ..Fields::none()
        }
    }

    /// The elements of a message that tells of the called party.
    pub fn party(progress: Option<Progress>, isdn: bool, parts: Parts) -> Fields
        ensures { table_of result ≡ table [] [] (progress_octets (or_noted (option_map progress_of progress) isdn (0x82, 0x82))) [] (parts_of parts) }
    {
        Fields {
            parts,
            ..Fields::progress(noted_or(progress, isdn, DESTINATION_NO_ISDN))
        }
    }

    /// The elements of a message that ends a call.
    pub fn clear(cause: Cause, parts: Parts) -> Fields
        ensures { table_of result ≡ table [] (cause_octets (Some (cause_of cause))) [] [] (parts_of parts) }
    {
        Fields {
            cause: cause_octets(cause),
            parts,
            ..Fields::none()
        }
    }
}
