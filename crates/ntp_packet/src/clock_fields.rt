//! The fields of a packet that tell the state of a server's clock.

use crate::{Short, Stamp};

/// The fields of a packet that tell the state of a server's clock (RFC 5905, 7.3), with any values.
#[derive(Clone, Copy, Debug, PartialEq, Eq)]
pub struct ClockFields {
    /// The leap indicator: 0 no warning, 1 the last minute has 61 seconds, 2 it has 59, 3 unsynchronised.
    pub leap: u8,
    /// The stratum: 1 is primary, 2 to 15 secondary, 16 unsynchronised, which a packet shows as 0; 0 also in a kiss.
    pub stratum: u8,
    /// The clock's precision, as the binary logarithm of seconds.
    pub precision: i8,
    /// The round trip delay to the reference clock.
    pub root_delay: Short,
    /// The dispersion to the reference clock.
    pub root_dispersion: Short,
    /// The reference identifier: of the server or the reference clock, or a kiss code.
    pub reference_id: [u8; 4],
    /// When the system clock was last set.
    pub reference: Stamp,
}
