//! What the messages of ISUP mean: types, tables and laws. The code that keeps to them is the crate `isup`.
#![tactic(auto)]

pub mod layout;
pub mod naming;
pub mod types;
