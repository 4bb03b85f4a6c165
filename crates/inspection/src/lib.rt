//! What programs that take captured messages apart have in common: lines of hex read from standard input,
//! the elements of each message shown octet by octet and written again, and a count of what was seen.
#![tactic(auto)]

mod header;
mod lines;
mod meaning;
mod report;
mod rewrite;
#[cfg(test)]
mod tests;
mod types;

pub use lines::inspect;
pub use report::{show_dss1, show_field, show_parameters};
pub use types::{Found, Kind, Tally};
