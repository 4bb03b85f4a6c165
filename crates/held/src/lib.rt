//! Octets held by value until they are written: at most so many, as their type says.
#![tactic(auto)]

ghost use Rattle.std.specs.Prelude.{◌≡◌, ℕ, ◌≤◌, length};

mod holding;

// An array and a count, and no Vec: what is held is of fixed size and copied, and nothing is allocated for it.
/// At most `N` octets.
#[derive(Clone, Copy)]
pub struct Held<const N: usize> {
    octets: [u8; N],
    count: usize,
    ghost room: { length octets ≡ N },
    ghost most: { count ≤ N },
}
