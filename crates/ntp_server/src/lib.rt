//! A server with its commands, the state of its clock and who is told of what it does.
#![tactic(auto)]

mod reporter;
mod server;

pub use reporter::{NoReports, Reporter};
pub use server::Server;
