//! Whether the host's clock was set, and whether the daemon shows an update since.
ghost use Rattle.std.specs.Prelude.{◌≡◌};
ghost use Rattle.ntp_client.specs.Watching.{new_watch, is_set_since, after_set, shows_update};

use crate::Reading;
use crate::reading::apart;
use ntp_packet::{Stamp, difference};

/// How far the clocks go apart at most where the host's was not set, in units of 2^-32 nanoseconds: a thousandth of a second (profile).
const MOST_APART: u128 = 1_000_000 << 32;

/// What is known of when the host's clock was set, and of what its daemon told since (profile).
#[derive(Clone, Copy, Debug, PartialEq, Eq)]
pub struct ClockWatch {
    /// What the host's clocks showed when the last question left, or when the host's was seen to be set after that.
    pub seen: Option<Reading>,
    /// What the host's clocks showed when the host's was last seen to be set.
    pub set: Option<Reading>,
    /// The reference time of the daemon's last answer since then, 0 where that told none.
    pub told: Option<Stamp>,
}

impl ClockWatch {
    // Nothing was seen, and the daemon told no reference time.
    pub(crate) fn new() -> ClockWatch
        ensures { result ≡ new_watch }
    {
        ClockWatch {
            seen: None,
            set: None,
            told: Some(Stamp(0)),
        }
    }

    // What is known once a reading has shown that the clock was set.
    pub(crate) fn after_set(now: Reading) -> ClockWatch
        ensures { result ≡ after_set now }
    {
        ClockWatch {
            seen: Some(now),
            set: Some(now),
            told: None,
        }
    }

    // Whether a reading shows that the host's clock was set since it was seen.
    pub(crate) fn is_set_since(&self, now: Reading) -> bool
        ensures { result ≡ is_set_since self.now.seen now }
    {
        self.seen.is_some_and(|seen| apart(seen, now) > MOST_APART)
    }

    // Whether an answer with this reference time, which was sent then, shows an update since the clock was set: that is another time than
    // the daemon told since, and lies neither before the setting nor behind the answer.
    pub(crate) fn shows_update(&self, reference: Stamp, sent: Stamp) -> bool
        ensures { result ≡ shows_update self.now reference sent }
    {
        reference.0 != 0
            && self.told.is_some_and(|told| reference != told)
            && self
                .set
                .is_none_or(|set| difference(reference, set.clock.stamp) >= 0)
            && difference(reference, sent) <= 0
    }
}
