//! Tests of analogue lines: messages read and told over a book of legs.
#![tactic(auto)]

#[cfg(test)]
mod calling;
#[cfg(test)]
mod reading;
