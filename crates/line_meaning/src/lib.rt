//! What the messages of analogue lines mean: tables and laws. The code that keeps to them is the crate `line`.
#![tactic(auto)]
