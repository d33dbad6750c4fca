//! A query for people: a server is asked, under a key or without one, and what came of it is put in words. It opens no socket, and
//! reads no file.
#![tactic(auto)]

mod answer;
mod asker;
mod check;
mod exchange;
mod key_file;
mod outcome;
mod outcome_text;
mod reference;
mod server;

pub use answer::{Answer, Nanos};
pub use asker::Asker;
pub use check::{Cause, Check, Limits, Measure, Verdict, check_status, verdict_of};
pub use exchange::{Link, MOST_RECEIVED_OCTETS, Received, Room, ask, empty_room};
pub use key_file::{KeyFileFault, KeyLineFault, key_in_text, spaced};
pub use outcome::{Outcome, Unreached, hear, least_delay};
pub use outcome_text::Least;
pub use reference::Reference;
pub use server::{NTP_PORT, Server, host_in, server_in};
