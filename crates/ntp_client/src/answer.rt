//! An answer of the host's clock daemon, and how it ages.
ghost use Rattle.std.specs.Prelude.{◌≡◌, ◌^◌, ◌<◌, ◌≤◌};
ghost use Rattle.ntp_client.specs.InForce.{age, reference_age, root_distance_twice, drift, set_by, dispersion};

use crate::Reading;
use crate::reading::apart;
use ntp_packet::{Stamp, difference};
use ntp_reply::Reference;

/// How many units of 2^-33 seconds a unit of 2^-16 seconds has.
const SHORT_HALF_UNITS: u128 = 1 << 17;

/// How many units of 2^-32 nanoseconds a unit of 2^-16 seconds has.
const SHORT_NANO_UNITS: u64 = 1_000_000_000 << 16;

/// The nanoseconds in which a clock drifts by `DRIFT_UNITS`: 15 parts in a million (RFC 5905, 7.2), in
/// units of 2^-16 seconds, are 15 · 2^16 in 10^15 nanoseconds, or 6 in 5^14.
const DRIFT_NANOS: u64 = 6_103_515_625;

/// How many units of 2^-16 seconds a clock drifts by in `DRIFT_NANOS`.
const DRIFT_UNITS: u64 = 6;

/// An authentic answer of the host's clock daemon, and what it rests on.
#[derive(Clone, Copy, Debug, PartialEq, Eq)]
pub struct ClockAnswer {
    /// The state of its clock that the daemon told, with the delay of the exchange in the root delay.
    pub state: Reference,
    /// Twice the offset of its clock from the host's, in units of 2^-32 seconds (RFC 5905, 8).
    pub offset_twice: i128,
    /// Its transmit stamp: when it left, by the daemon's clock.
    pub sent: Stamp,
    /// What the monotonic clock showed when the question left, in nanoseconds.
    pub ticks: u64,
    /// What the host's clocks showed when the question left whose answer last showed an update of the daemon's clock. That may be an earlier
    /// question.
    pub base: Reading,
}

impl ClockAnswer {
    // How long ago its question left, in nanoseconds.
    pub(crate) fn age(&self, ticks: u64) -> u64
        ensures { result ≡ age self.now ticks }
    {
        ticks.saturating_sub(self.ticks)
    }

    // How long ago its clock was set by the host's clock, in units of 2^-32 seconds.
    pub(crate) fn reference_age(&self, now: Reading) -> i64
        ensures { result ≡ reference_age self.now now }
    {
        difference(now.clock.stamp, self.state.reference())
    }

    // Its root dispersion by now, in units of 2^-16 seconds: the one that it told, grown by the size of its offset, rounded up, by the
    // drift and by how far the host's clock was set.
    pub(crate) fn dispersion(&self, now: Reading) -> u32
        ensures { result ≡ dispersion self.now now }
    {
        let told = u128::from(self.state.root_dispersion().0);
        let offset = self.offset_twice.unsigned_abs().div_ceil(SHORT_HALF_UNITS);
        let drift = u128::from(drift(self.age(now.ticks)));
        (told + offset + drift + self.set_by(now)).min(u128::from(u32::MAX)) as u32
    }

    // Twice its root distance by now, in units of 2^-16 seconds.
    pub(crate) fn root_distance_twice(&self, now: Reading) -> u64
        ensures { result ≡ root_distance_twice self.now now }
    {
        u64::from(self.state.root_delay().0) + 2 * u64::from(self.dispersion(now))
    }

    // How far the host's clock was set since the daemon last showed an update, in units of 2^-16 seconds and rounded up.
    fn set_by(&self, now: Reading) -> u128
        ensures value { result ≡ set_by self.now now }
        ensures most { result ≤ 2 ^ 98 }
    {
        let units = apart(self.base, now);
        // Up to four seconds fit 64 bits, in which it is divided several times faster.
        if units <= u128::from(u64::MAX) {
            u128::from((units as u64).div_ceil(SHORT_NANO_UNITS))
        } else {
            units.div_ceil(u128::from(SHORT_NANO_UNITS))
        }
    }
}

// How far a clock may drift in `nanos` nanoseconds, in units of 2^-16 seconds and rounded up. Whole times of
// `DRIFT_NANOS` are counted apart, so that no product is too large for 64 bits.
fn drift(nanos: u64) -> u64
    ensures value { result ≡ drift nanos }
    ensures most { result < 2 ^ 63 }
{
    let times = nanos / DRIFT_NANOS;
    let rest = nanos % DRIFT_NANOS;
    times * DRIFT_UNITS + (rest * DRIFT_UNITS).div_ceil(DRIFT_NANOS)
}
