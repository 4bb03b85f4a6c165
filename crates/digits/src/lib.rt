//! Dialled numbers: 1 to 20 digits, read from text, and packed as address signals two to an octet.
#![tactic(auto)]

mod number;
mod types;

pub use number::{Digits, is_digit, packing_is_undone, unpack};
pub use types::{DigitFault, MOST_DIGITS, PackFault};
