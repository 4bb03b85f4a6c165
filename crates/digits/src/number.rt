ghost use Rattle.std.specs.Prelude.{◌≡◌, ℕ, ◌<◌, ◌≤◌, length, slice_index};

mod packing;
mod reading;

use crate::types::MOST_DIGITS;
pub use packing::{packing_is_undone, unpack};
pub use reading::is_digit;

/// A dialled number: 1 to 20 digits as IA5 characters, held by value.
// A fixed array and a count: what a side holds is of fixed size and copied, so no Vec and no String.
// Not Held: behind the digits stand zeros, which Held does not say.
#[derive(Clone, Copy, Eq, Debug)]
pub struct Digits {
    octets: [u8; MOST_DIGITS],
    count: usize,
    ghost room: { length octets ≡ 20 },
    ghost some: { 1 ≤ count },
    ghost most: { count ≤ 20 },
    ghost digits: { ((k : ℕ) → k < count → (48 ≤ slice_index octets k) × (slice_index octets k ≤ 57)) },
    ghost padded: { ((k : ℕ) → count ≤ k → slice_index octets k ≡ 0) },
}
