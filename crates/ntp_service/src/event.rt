//! What happens to a service, one step at a time.

use crate::{Address, Command, Octets};
use ntp_packet::{Moment, Stamp};
use ntp_reply::Reference;
use std::alloc::{Allocator, Global};

/// One event. Each names one address.
#[derive(Debug, Drop)]
pub enum Event<A: Allocator = Global> {
    /// A datagram came from an address at `receipt`; the reply to it, if any, departs at `transmit`.
    Datagram {
        address: Address,
        receipt: Moment,
        transmit: Moment,
        reference: Reference,
        octets: Octets<A>,
    },
    /// The reply to an address whose receive stamp was `receive` departed at `moment`.
    Departed {
        address: Address,
        receive: Stamp,
        moment: Moment,
    },
    /// An administrator gave a command.
    Command(Command),
}
