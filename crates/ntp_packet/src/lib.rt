//! Stamps and moments as NTP counts them, and its packets.
//!
//! A stamp is 32 bits of seconds and 32 bits of fraction (RFC 5905, 6). An era lasts 2^32 seconds, and era 0 began on 1900-01-01 at
//! 00:00 UTC. Nothing here reads a clock.
//!
//! The header of 48 octets (RFC 5905, 7.3) is read and written exactly, and what stands behind it: extension fields (RFC 7822) and a MAC
//! (RFC 5905, 7.3). A datagram is split into parts that are lent from it: nothing is copied.
#![tactic(auto)]

mod clock_fields;
mod differences;
mod digests;
mod field_writing;
mod fields;
mod free_stamp;
mod header;
mod kiss;
mod laws;
mod malformed;
mod moment;
mod reading;
mod request;
mod splitting;
mod stamp;
mod tail;
mod writing;

pub use clock_fields::ClockFields;
pub use differences::{difference, near};
pub use digests::Digest;
pub use field_writing::{FieldFault, write_field};
pub use fields::Fields;
pub use free_stamp::{first_free, fresh};
pub use header::{HEADER_OCTETS, Header};
pub use kiss::{DENY_CODE, RATE_CODE};
pub use laws::{
    any_48_octets_are_one_header, fields_are_read_back, parts_are_a_request,
    parts_with_mac_are_a_request, spelling_has_48_octets,
};
pub use malformed::Malformed;
pub use moment::{Moment, TimeFault};
pub use reading::read_header;
pub use request::{MOST_DATAGRAM_OCTETS, Request};
pub use splitting::read_request;
pub use stamp::{Short, Stamp};
pub use tail::Tail;
pub use writing::write_header;
