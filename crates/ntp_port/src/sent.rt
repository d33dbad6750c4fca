//! What was sent.

use ntp_mac::Reply;
use ntp_service::Address;

/// A reply that was sent.
#[derive(Debug, Drop)]
pub struct Sent {
    /// The address to which it went.
    pub address: Address,
    /// The UDP port to which it went.
    pub port: u16,
    /// The reply.
    pub reply: Reply,
}
