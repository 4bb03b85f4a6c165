//! Tests of the crates that read and write octets: lists of elements, dialled numbers and values.
#![tactic(auto)]

#[cfg(test)]
mod dialling;
#[cfg(test)]
mod reading;
#[cfg(test)]
mod tables;
#[cfg(test)]
mod valuing;
#[cfg(test)]
mod writing;
