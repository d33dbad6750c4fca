//! A moment: a stamp in its era.
ghost use Rattle.std.specs.Prelude.{◌≡◌, ◌↔◌, ◌+◌, ◌*◌, ◌/◌, ◌^◌, ◌<◌, ◌≤◌, ◌≤ℤ◌, ◌<ℤ◌, pos, IfOk};
ghost use Rattle.ntp_packet.specs.Moment.{units, window_of};
ghost use Rattle.ntp_packet.specs.Unix.{all_seconds, second_nanos, since_1900, IsUnixTime};

use crate::Stamp;

/// How long an era lasts, in seconds (RFC 5905, 6).
const ERA_SECONDS: u64 = 1 << 32;

/// How many units of 2^-32 seconds a second has (RFC 5905, 6).
const SECOND_UNITS: u64 = 1 << 32;

/// How long a window lasts, in seconds (profile). Budgets and refusals are counted in it.
const WINDOW_SECONDS: u64 = 64;

/// The seconds from 1900-01-01 to 1970-01-01, at which Unix begins to count (RFC 5905, 6).
const UNIX_EPOCH: i128 = 2_208_988_800;

/// How many seconds the eras from 0 to 2^32 - 1 last.
const ALL_SECONDS: i128 = 1 << 64;

/// How many nanoseconds a second has.
const SECOND_NANOS: u32 = 1_000_000_000;

/// A moment: a stamp in an era (RFC 5905, 6).
#[derive(Clone, Copy, Debug, PartialEq, Eq, PartialOrd, Ord)]
pub struct Moment {
    /// The era; era 0 began on 1900-01-01 at 00:00 UTC.
    pub era: u32,
    /// The time since the era began.
    pub stamp: Stamp,
}

/// Why a time by Unix's count is no moment. The first that applies is told.
#[derive(Clone, Copy, Debug, PartialEq, Eq)]
pub enum TimeFault {
    /// It lies before 1900-01-01 at 00:00 UTC.
    BeforeEra0,
    /// The nanoseconds are 1,000,000,000 or more.
    BadNanos,
    /// Its era is above 2^32 - 1.
    EraTooLarge,
}

impl Moment {
    /// The moment `seconds` seconds and `nanos` nanoseconds after 1970-01-01 at 00:00 UTC.
    /// The nanoseconds are rounded down to units of 2^-32 seconds. Faults come in the order of
    /// `TimeFault`.
    pub fn from_unix(seconds: i128, nanos: u32) -> Result<Moment, TimeFault>
        ensures moment { IfOk result (λ moment. IsUnixTime moment seconds nanos) }
        ensures before_era_0 { (result ≡ Err TimeFault.BeforeEra0) ↔ (since_1900 seconds <ℤ pos 0) }
        ensures bad_nanos { (result ≡ Err TimeFault.BadNanos) ↔ ((pos 0 ≤ℤ since_1900 seconds) × (second_nanos ≤ nanos)) }
        ensures era_too_large { (result ≡ Err TimeFault.EraTooLarge) ↔ ((nanos < second_nanos) × (pos all_seconds ≤ℤ since_1900 seconds)) }
    {
        if seconds < -UNIX_EPOCH {
            return Err(TimeFault::BeforeEra0);
        }
        if nanos >= SECOND_NANOS {
            return Err(TimeFault::BadNanos);
        }
        if seconds >= ALL_SECONDS - UNIX_EPOCH {
            return Err(TimeFault::EraTooLarge);
        }
        let fraction = u64::from(nanos) * SECOND_UNITS / u64::from(SECOND_NANOS);
        Ok(moment_at((seconds + UNIX_EPOCH) as u64, fraction))
    }

    /// The stamp, without its era.
    pub fn stamp(&self) -> Stamp
        ensures { result ≡ self.now.stamp }
    {
        self.stamp
    }

    /// The window in which the moment lies: its whole seconds since 1900, divided by 64 and rounded
    /// down (profile).
    pub fn window(&self) -> u64
        ensures { result ≡ window_of self.now }
    {
        let era = u64::from(self.era);
        let units = self.stamp.0;
        let seconds = era * ERA_SECONDS + (units >> 32);
        seconds / WINDOW_SECONDS
    }
}

// The moment `seconds` seconds and `fraction` units of 2^-32 seconds after 1900.
fn moment_at(seconds: u64, fraction: u64) -> Moment
    requires { fraction < 2 ^ 32 }
    ensures { units result ≡ seconds * 2 ^ 32 + fraction }
{
    Moment {
        era: (seconds / ERA_SECONDS) as u32,
        stamp: Stamp(seconds % ERA_SECONDS * SECOND_UNITS + fraction),
    }
}
