//! The limits within which an answer is believed.

use ntp_packet::Short;

/// The limits within which an answer of the host's clock daemon is believed (profile).
#[derive(Clone, Copy, Debug, PartialEq, Eq)]
pub struct ClockLimits {
    /// From this age on an answer is not believed, in nanoseconds.
    pub valid_for: u64,
    /// The greatest root distance, in units of 2^-16 seconds.
    pub most_root_distance: Short,
    /// How long ago the daemon's clock may have been set at most, in seconds. `None` where it may be any time.
    pub most_reference_age: Option<u64>,
    /// How far the host's clock may have been set since the daemon last showed an update at most, in nanoseconds.
    pub most_step: u64,
}
