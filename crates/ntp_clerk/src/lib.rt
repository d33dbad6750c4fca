//! What is decided for a clerk who keeps customers, without a file: commands, key numbers, texts, and the datagrams of a capture.
#![tactic(auto)]

mod capture;
mod command_text;
mod confirming;
mod grant;
mod leading;
mod seen;
mod wanted;

pub use capture::{
    Capture, CaptureFault, Datagram, Link, Order, Record, capture_in, datagram_in, next_record,
    packet_in,
};
pub use command_text::{
    algorithm_word, budget_named, command_line, command_shown, key_named, name_in, name_line,
    record_line,
};
pub use confirming::{
    ends_many, is_settled, may_be_renewed, may_retire, number_for_a_key, number_to_retire,
};
pub use grant::{Grant, customer_text, is_read_two_ways};
pub use leading::{ByAddress, LeadFault, commands_to, commands_to_move, fold, rollover};
pub use seen::{
    Difference, Dotted, Keys, Seen, SeenKey, SeenTerms, differing_at, have_same_keys, seen_at,
    seen_terms,
};
pub use wanted::{GivenKey, Terms, Wanted, algorithm_under, customers_of, terms_of};
