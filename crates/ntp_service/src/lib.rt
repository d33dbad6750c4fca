//! A service for registered customers: one event at a time, or a list of them; who is told of them; and what is promised of
//! its answers.
//!
//! One or two keys are tied to one client address. Who holds a key number is kept apart from the customers, so nothing that is
//! written to a customer alters it. Contracts see the register as two finite maps, with no order of entries and no spare room.
#![tactic(auto)]

mod address;
mod command;
mod commands;
mod event;
mod laws;
mod line_fault;
mod observation;
mod observer;
mod octets;
mod outcome;
mod refusal;
mod running;
mod service;
mod store;

pub use address::Address;
pub use command::Command;
pub use event::Event;
pub use laws::{
    a_customer_has_one_or_two_keys, a_number_has_one_holder, a_split_is_not_felt,
    a_split_of_commands_is_not_felt, few_replies_are_told, forged_datagrams_change_nothing,
    no_forgery_is_felt, no_neighbour_is_felt, replies_in_a_window_are_few, stamps_are_told_apart,
    what_is_kept_of_a_life_tells_all,
};
pub use line_fault::LineFault;
pub use ntp_customer::{Customer, NoMemory, NumberedKey};
pub use observation::{Arrival, LineOutcome, Observation, Sending, TurnOutcome};
pub use observer::Observer;
pub use octets::Octets;
pub use outcome::Outcome;
pub use refusal::Refusal;
pub use service::Service;
pub use store::Register;
