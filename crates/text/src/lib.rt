//! Lines, words and octets in hex, read out of a text, and octets shown as text.
#![tactic(auto)]

mod hex;
mod types;
mod words;

pub use hex::{Characters, Octets, hex_digit, read_octets};
pub use types::HexFault;
pub use words::{Lines, first_word, is_blank, next_line, without_comment};
