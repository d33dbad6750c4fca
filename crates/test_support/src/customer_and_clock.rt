//! The customer, and the state of the clock by which it is answered.

use crate::plain_calls::ordered;
use ntp_admin::parse_command;
use ntp_packet::{Moment, Short, Stamp};
use ntp_reply::Reference;
use ntp_service::{Address, Service};
use std::alloc::Allocator;
use std::test::Fail;

/// The customer's address.
pub const CUSTOMER: Address = Address([192, 0, 2, 10]);

/// The line that enrols the customer, with key number 7 and the MD5 key `key`, and the ten answers of its budget.
const ENROLMENT: &str = "enrol 192.0.2.10 7 md5 6b6579 10";

/// A service that knows the customer, and nobody else.
pub fn enrolled_service<A: Allocator + Copy>(alloc: A) -> Result<Service<A>, Fail> {
    let command = parse_command(ENROLMENT)?;
    let mut service = Service::new(alloc);
    ordered(&mut service, &command)?;
    Ok(service)
}

/// The state of a primary server's clock, which was last set at stamp ec00000000000000. As a word of a script it is
/// `0001ec00000000000000104e495354ec00000000000000`.
pub fn reference() -> Result<Reference, Fail> {
    Ok(Reference::new(
        0,
        1,
        -20,
        Short(0),
        Short(0x10),
        *b"NIST",
        Stamp(0xec00_0000_0000_0000),
    )?)
}

/// The moment of era 0 with this stamp.
pub fn moment(stamp: u64) -> Moment {
    Moment {
        era: 0,
        stamp: Stamp(stamp),
    }
}
