//! ISUP messages read: what a distant exchange sends becomes a signal on a leg, or is refused.
#![tactic(auto)]

pub mod codes;
mod layout;
mod message;
pub mod reading;
