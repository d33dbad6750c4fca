//! The addresses of clients.

/// An IPv4 address, as its four octets from the first to the last (RFC 791, 2.3).
#[derive(Clone, Copy, Debug, PartialEq, Eq, PartialOrd, Ord, Hash)]
pub struct Address(pub [u8; 4]);
