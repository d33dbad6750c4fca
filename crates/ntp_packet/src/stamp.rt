//! The two formats of time in a packet (RFC 5905, 6).

/// A time stamp: 32 bits of seconds since the era began and 32 bits of fraction, in units of 2^-32
/// seconds. All zeros means that the time is unknown.
#[derive(Clone, Copy, Debug, Default, PartialEq, Eq, PartialOrd, Ord)]
pub struct Stamp(pub u64);

/// The short format: 16 bits of seconds and 16 bits of fraction, in units of 2^-16 seconds.
#[derive(Clone, Copy, Debug, PartialEq, Eq, PartialOrd, Ord)]
pub struct Short(pub u32);
