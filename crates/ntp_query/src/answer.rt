//! What a reply that gave a sample tells, in seconds to the nanosecond.
ghost use Rattle.std.specs.Prelude.{◌≡◌, ◌*◌, ◌^◌, ◌<◌, ◌≤◌, pos, unsigned_abs};
ghost use Rattle.ntp_query.specs.Answer.{answer_of, offset_of, delay_of, root_distance_of, nearest, nanos_of};

use ntp_client::Sample;
use ntp_packet::{ClockFields, Header};
use std::fmt;

/// How many nanoseconds a second has.
const SECOND_NANOS: u64 = 1_000_000_000;

/// How many units of 2^-33 seconds a second has: those of twice an offset.
const OFFSET_UNITS: u64 = 1 << 33;

/// How many units of 2^-32 seconds a second has: those of a delay.
const DELAY_UNITS: u64 = 1 << 32;

/// How many units of 2^-17 seconds a second has: those of twice a root distance.
const ROOT_UNITS: u64 = 1 << 17;

/// A sample, and what the reply that gave it tells of the server's clock.
#[derive(Clone, Copy, Debug, PartialEq, Eq)]
pub struct Answer {
    /// The four stamps.
    pub sample: Sample,
    /// Whether the reply was signed under the key. Anybody could have sent one that was not.
    pub signed: bool,
    /// The fields that the reply tells of the server's clock (RFC 5905, 7.3).
    pub clock: ClockFields,
}

impl Answer {
    // What a reply with this header tells, which gave this sample.
    pub(crate) fn of(sample: Sample, signed: bool, header: &Header) -> Answer
        ensures { result ≡ answer_of sample signed header.now }
    {
        Answer {
            sample,
            signed,
            clock: header.clock(),
        }
    }

    /// The offset of the server's clock from this host's (RFC 5905, 8).
    pub fn offset(&self) -> Nanos
        ensures { result.0 ≡ offset_of self.now }
    {
        Nanos::of_units(self.sample.offset_twice(), OFFSET_UNITS)
    }

    /// The round trip delay (RFC 5905, 8).
    pub fn delay(&self) -> Nanos
        ensures { result.0 ≡ delay_of self.now }
    {
        Nanos::of_units(self.sample.delay(), DELAY_UNITS)
    }

    /// The root distance that the server tells: half its root delay, and its root dispersion (RFC 5905, 11.2).
    pub fn root_distance(&self) -> Nanos
        ensures { result.0 ≡ root_distance_of self.now }
    {
        let units = i128::from(self.clock.root_delay.0)
            + 2 * i128::from(self.clock.root_dispersion.0);
        Nanos::of_units(units, ROOT_UNITS)
    }
}

/// A time in nanoseconds. It prints in seconds with nine decimals, and `-` in front of what is below 0.
#[derive(Clone, Copy, Debug, PartialEq, Eq)]
pub struct Nanos(pub i64);

impl Nanos {
    /// A number of units, where a second has `second` units, to the nearest nanosecond; of two as near the one further from 0. They are
    /// an era at most.
    pub fn of_units(units: i128, second: u64) -> Nanos
        requires least { 0 < second }
        requires most { second ≤ 2 ^ 33 }
        requires era { unsigned_abs units ≤ second * 2 ^ 32 }
        ensures { result.0 ≡ nanos_of units second }
    {
        let size = nearest(units.unsigned_abs() * u128::from(SECOND_NANOS), second);
        Nanos(if units < 0 { -size } else { size })
    }
}

// The whole number nearest to a quotient, of two as near the greater.
fn nearest(dividend: u128, divisor: u64) -> i64
    requires least { 0 < divisor }
    requires most { divisor ≤ 2 ^ 33 }
    requires fits { dividend ≤ divisor * 2 ^ 62 }
    ensures value { result ≡ pos (nearest dividend divisor) }
{
    let divisor = u128::from(divisor);
    ((2 * dividend + divisor) / (2 * divisor)) as i64
}

impl fmt::Display for Nanos {
    fn fmt<W: fmt::Write>(&self, f: &mut fmt::Formatter<W>) -> fmt::Result {
        let sign = if self.0 < 0 { "-" } else { "" };
        let size = self.0.unsigned_abs();
        let (whole, rest) = (size / SECOND_NANOS, size % SECOND_NANOS);
        write!(f, "{sign}{whole}.{rest:09}")
    }
}
