//! A sample of a server's clock.
ghost use Rattle.std.specs.Prelude.{◌≡◌, ◌^◌, ◌<◌, ◌≤◌, unsigned_abs};
ghost use Rattle.ntp_client.specs.Sample.{offset_twice, delay};

use ntp_packet::{Stamp, difference};
use std::fmt;

/// How many units of 2^-33 seconds a second has: the units of a sample's `offset_twice`, halved.
const SECOND_HALF_UNITS: u128 = 1 << 33;

/// How many units of 2^-32 seconds a second has.
const SECOND_UNITS: u128 = 1 << 32;

/// How many nanoseconds a second has.
const SECOND_NANOS: u128 = 1_000_000_000;

/// The four stamps of an exchange (RFC 5905, 8). It prints its offset and delay in seconds.
#[derive(Clone, Copy, Debug, PartialEq, Eq)]
pub struct Sample {
    /// The departure of the request, by the client's clock.
    pub t1: Stamp,
    /// Its arrival, by the server's clock.
    pub t2: Stamp,
    /// The departure of the reply, by the server's clock.
    pub t3: Stamp,
    /// Its arrival, by the client's clock.
    pub t4: Stamp,
    /// Whether the stamps are those of the exchange before, whose departure the present reply tells
    /// (RFC 9769, 2).
    pub interleaved: bool,
}

impl Sample {
    /// Twice the offset of the server's clock from the client's, in units of 2^-32 seconds (RFC 5905, 8).
    pub fn offset_twice(&self) -> i128
        ensures sum { result ≡ offset_twice self.now }
        ensures most { unsigned_abs result ≤ 2 ^ 64 }
    {
        i128::from(difference(self.t2, self.t1)) + i128::from(difference(self.t3, self.t4))
    }

    /// The round trip delay between client and server, in units of 2^-32 seconds (RFC 5905, 8).
    pub fn delay(&self) -> i128
        ensures sum { result ≡ delay self.now }
        ensures most { unsigned_abs result ≤ 2 ^ 64 }
    {
        i128::from(difference(self.t4, self.t1)) - i128::from(difference(self.t3, self.t2))
    }
}

/// The offset of the server's clock and the delay, in seconds with nine decimals, rounded to the nearest.
impl fmt::Display for Sample {
    fn fmt<W: fmt::Write>(&self, f: &mut fmt::Formatter<W>) -> fmt::Result {
        f.write_str("offset ")?;
        write_seconds(f, self.offset_twice(), SECOND_HALF_UNITS)?;
        f.write_str(" s, delay ")?;
        write_seconds(f, self.delay(), SECOND_UNITS)?;
        f.write_str(" s")
    }
}

// Writes a time of `units` units, each the `second`-th part of a second, in seconds with nine decimals.
fn write_seconds<W: fmt::Write>(f: &mut fmt::Formatter<W>, units: i128, second: u128) -> fmt::Result
    requires few { unsigned_abs units ≤ 2 ^ 64 }
    requires second_given { 0 < second }
    requires second_small { second ≤ 2 ^ 33 }
{
    let nanos = (units.unsigned_abs() * SECOND_NANOS + second / 2) / second;
    if units < 0 && nanos > 0 {
        f.write_str("-")?;
    }
    let whole = nanos / SECOND_NANOS;
    let rest = nanos % SECOND_NANOS;
    write!(f, "{whole}.{rest:09}")
}
