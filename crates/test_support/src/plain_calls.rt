//! Calls of a service without what is promised of them. A test proves only that it is safe, and each clause of a call stands among
//! the premises of all that it still has to prove behind it.

use crate::customer_and_clock::CUSTOMER;
use ntp_admin::{Command, Event, NoMemory, Outcome};
use ntp_packet::Moment;
use ntp_reply::{Answer, Reference};
use ntp_service::{Refusal, Service};
use std::alloc::Allocator;

/// What a command is answered.
pub fn ordered<A: Allocator + Copy>(
    service: &mut Service<A>,
    command: &Command,
) -> Result<(), Refusal> {
    service.command(command)
}

/// What becomes of events.
pub fn run<A: Allocator + Copy>(
    service: &mut Service<A>,
    events: &[Event<A>],
) -> Result<Vec<Outcome, A>, NoMemory> {
    service.run(events)
}

/// What the customer's octets are answered that come at this receipt, where the reply departs at once.
pub fn answered<A: Allocator + Copy>(
    service: &mut Service<A>,
    receipt: Moment,
    reference: &Reference,
    octets: &[u8],
) -> Answer {
    service.datagram(CUSTOMER, receipt, receipt, reference, octets)
}
