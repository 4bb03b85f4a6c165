//! What a message holds besides its fixed octets.
ghost use Rattle.std.specs.Prelude.{◌≡◌, ℕ, ◌≤◌, length};

mod making;

use held::Held;
pub(crate) use making::{cause_field, is_in_band, number_field, progress_octets};
use side::parts::Parts;

/// What the optional list of a message holds; what is empty is left out.
#[derive(Clone, Copy)]
pub(crate) struct Optional<'a> {
    pub(crate) progress: Held<2>,
    pub(crate) parts: &'a Parts,
    pub(crate) bearer: &'a [u8],
    ghost short: { length bearer.now ≤ 11 },
}
