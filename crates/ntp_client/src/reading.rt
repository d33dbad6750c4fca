//! Readings of the host's clocks.
ghost use Rattle.std.specs.Prelude.{◌≡◌, ◌^◌, ◌≤◌, ◌-ℤ◌, ◌*ℤ◌, pos, unsigned_abs};
ghost use Rattle.ntp_packet.specs.Difference.{difference};
ghost use Rattle.ntp_client.specs.Reading.{apart};

use ntp_packet::{Moment, Stamp, difference};

/// How many units of 2^-32 seconds a second has (RFC 5905, 6).
pub(crate) const SECOND_UNITS: i128 = 1 << 32;

/// How many nanoseconds a second has.
const SECOND_NANOS: i128 = 1_000_000_000;

/// What the host's clock and its monotonic one showed together.
#[derive(Clone, Copy, Debug, PartialEq, Eq)]
pub struct Reading {
    /// What the host's clock showed.
    pub clock: Moment,
    /// What the monotonic clock showed, in nanoseconds.
    pub ticks: u64,
}

// How far the host's clock has gone apart from the ticks between two readings, in units of 2^-32 nanoseconds.
pub(crate) fn apart(first: Reading, second: Reading) -> u128
    ensures value { result ≡ apart first second }
    ensures most { result ≤ 2 ^ 98 }
{
    let shown = nano_units(second.clock.stamp, first.clock.stamp);
    let gone = tick_units(first.ticks, second.ticks);
    (shown - gone).unsigned_abs()
}

// One stamp minus another, in units of 2^-32 nanoseconds.
pub(crate) fn nano_units(stamp: Stamp, earlier: Stamp) -> i128
    ensures value { result ≡ difference stamp earlier *ℤ pos (10 ^ 9) }
    ensures most { unsigned_abs result ≤ 2 ^ 93 }
{
    i128::from(difference(stamp, earlier)) * SECOND_NANOS
}

// How many ticks have gone between two counts, in units of 2^-32 nanoseconds.
fn tick_units(first: u64, second: u64) -> i128
    ensures value { result ≡ (pos second -ℤ pos first) *ℤ pos (2 ^ 32) }
    ensures most { unsigned_abs result ≤ 2 ^ 96 }
{
    (i128::from(second) - i128::from(first)) * SECOND_UNITS
}
