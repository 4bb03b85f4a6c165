ghost use Rattle.std.specs.Prelude.{ℕ, ◌<◌};

mod numbering;

/// The most legs that any side has.
pub const MOST_LEGS: usize = 64;

/// A call place of a side, numbered from 0; each system makes one from octets at a single place of its code.
#[derive(Clone, Copy)]
pub struct Leg {
    number: u8,
    ghost few: { number < 64 },
}
