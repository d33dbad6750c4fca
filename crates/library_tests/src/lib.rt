//! Tests of the libraries. They stand here since a crate with tests is proved twice.
#![tactic(auto)]

#[cfg(test)]
mod packets;
#[cfg(test)]
mod servers;
