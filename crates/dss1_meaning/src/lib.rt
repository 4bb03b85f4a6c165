//! What the messages of DSS 1 mean: types, tables and laws. The code that keeps to them is the crate `dss1`.
#![tactic(auto)]

pub mod naming;
pub mod references;
pub mod types;
