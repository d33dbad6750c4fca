//! The kisses of the server.

/// The kiss codes that the server sends (RFC 5905, 7.4).
#[derive(Clone, Copy, Debug, PartialEq, Eq)]
pub enum Kiss {
    /// `RATE`: the customer asks too often.
    Rate,
    /// `DENY`: the server refuses to serve the sender.
    Deny,
}
