//! DSS 1: the messages of a subscriber's access read, and the references and octets that reader and writer share.
#![tactic(auto)]

mod list;
pub mod octets;
pub mod reading;
pub mod reference;
