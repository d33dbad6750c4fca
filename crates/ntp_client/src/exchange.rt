//! Exchanges of a client with its server.

use ntp_packet::Stamp;

/// An exchange that gave a sample, as the next request carries it (RFC 9769, 2).
#[derive(Clone, Copy, Debug, PartialEq, Eq)]
pub struct Exchange {
    /// The transmit stamp of the request.
    pub transmit: Stamp,
    /// The receive stamp of the reply.
    pub receive: Stamp,
    /// The arrival of the reply, by the client's clock.
    pub arrival: Stamp,
}

/// A request that waits for its reply.
#[derive(Clone, Copy, Debug, PartialEq, Eq)]
pub struct Outstanding {
    /// Its transmit stamp.
    pub transmit: Stamp,
    /// The exchange that it carries: the one that gave a sample before it.
    pub earlier: Option<Exchange>,
}
