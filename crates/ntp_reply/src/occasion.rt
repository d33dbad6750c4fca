//! When a datagram is answered, and the stamps that its reply tells of that.

use crate::Reference;
use ntp_packet::{Moment, Stamp};

/// What is handed in with a datagram: when it came, the transmit moment of the reply to it, and the state of the server's clock
/// (profile).
#[derive(Clone, Copy, Debug)]
pub struct Occasion {
    /// When the datagram came.
    pub receipt: Moment,
    /// The transmit moment: when the reply to it is taken to leave.
    pub transmit: Moment,
    /// The state of the server's clock.
    pub reference: Reference,
}

/// The new stamps of a reply, in units of 2^-32 seconds.
#[derive(Clone, Copy, Debug, PartialEq, Eq)]
pub struct NewStamps {
    /// The receive stamp: that of the receipt, or the first after it that may be taken.
    pub receive: Stamp,
    /// The transmit stamp: that of the transmit moment, or the first after it that may be taken.
    pub transmit: Stamp,
}
