//! The kiss codes that a server sends and a client knows.

/// The kiss code of a server that is asked too often (RFC 5905, 7.4).
pub const RATE_CODE: [u8; 4] = *b"RATE";

/// The kiss code of a server that refuses to serve (RFC 5905, 7.4).
pub const DENY_CODE: [u8; 4] = *b"DENY";
