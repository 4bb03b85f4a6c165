//! Names and readings in words, for the programs that print them.
#![tactic(auto)]

pub mod names;
mod page;
mod readings;

pub use page::{INDENT, Page};
