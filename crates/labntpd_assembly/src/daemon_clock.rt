//! The clock's state in the log and in the statistics.

use ntp_client::{Doubt, Follower, Reading};
use ntp_host::{ClockSource, ClockWire, FollowedClock};
use ntp_port::ReferenceSource;
use ntp_reply::Reference;
use ntp_reports::{Belief, ClockGauges};

/// A second, in nanoseconds.
const SECOND_NANOS: i128 = 1_000_000_000;

/// The leap indicator of an unsynchronised clock (RFC 5905, 7.3).
const UNSYNCHRONISED_LEAP: u8 = 3;

/// The state of the clock in replies, and whether its daemon is believed or why not.
#[derive(Clone, Copy)]
pub struct ClockState {
    /// What replies say.
    pub reference: Reference,
    /// Whether the daemon is believed.
    pub belief: Belief,
}

/// A clock source that the log and the statistics can report on.
pub trait DaemonClock: ReferenceSource {
    /// The state of the clock by a reading of the host's clocks.
    fn state(&self, now: Reading) -> ClockState;

    /// Returns the gauges of the clock, where it has this state.
    fn gauges(&self, state: &ClockState, now: Reading) -> ClockGauges;
}

impl<W: ClockWire> DaemonClock for ClockSource<W> {
    fn state(&self, now: Reading) -> ClockState {
        let belief = match self {
            ClockSource::Fixed(_) => Belief::Fixed,
            ClockSource::Followed(followed) => belief_in(followed, now),
        };
        ClockState {
            reference: self.state(now),
            belief,
        }
    }

    fn gauges(&self, state: &ClockState, now: Reading) -> ClockGauges {
        let ClockState { reference, belief } = state;
        let follower = match self {
            ClockSource::Fixed(_) => None,
            ClockSource::Followed(followed) => Some(&followed.follower),
        };
        let limits = follower.map(|it| it.limits());
        ClockGauges {
            is_synchronised: is_synchronised(reference),
            age: follower.and_then(|it| it.age(now.ticks)),
            stratum: reference.stratum(),
            leap: reference.leap(),
            root_delay: reference.root_delay(),
            root_dispersion: reference.root_dispersion(),
            offset: follower
                .and_then(|it| it.learned())
                .map(|answer| half_units_nanos(answer.offset_twice)),
            reference_age: follower.and_then(|it| reference_age_nanos(it, now)),
            most_reference_age: limits
                .and_then(|it| it.most_reference_age)
                .map(seconds_nanos),
            root_distance: follower
                .and_then(|it| it.root_distance_twice(now))
                .map(distance_nanos),
            most_root_distance: limits.map(|it| it.most_root_distance),
            belief: *belief,
        }
    }
}

/// Whether a state is that of a synchronised clock.
pub(crate) fn is_synchronised(state: &Reference) -> bool {
    state.leap() != UNSYNCHRONISED_LEAP
}

// How long ago the clock's daemon was set, in nanoseconds, where its last answer says when.
fn reference_age_nanos(follower: &Follower, now: Reading) -> Option<i64> {
    let answer = follower.learned()?;
    if answer.state.reference().0 == 0 {
        return None;
    }
    let age = follower.reference_age(now)?;
    Some(half_units_nanos(i128::from(age) * 2))
}

// A time in units of 2^-33 seconds, in nanoseconds.
fn half_units_nanos(time: i128) -> i64 {
    let nanos = time.saturating_mul(SECOND_NANOS) / (1 << 33);
    let farthest = if nanos < 0 { i64::MIN } else { i64::MAX };
    i64::try_from(nanos).unwrap_or(farthest)
}

// A number of seconds, in nanoseconds.
fn seconds_nanos(seconds: u64) -> u64 {
    seconds.saturating_mul(SECOND_NANOS as u64)
}

// A root distance, twice in units of 2^-16 seconds, in nanoseconds.
fn distance_nanos(twice: u64) -> u64 {
    seconds_nanos(twice) >> 17
}

// Whether the clock's daemon is believed, and else why not.
fn belief_in<W: ClockWire>(followed: &FollowedClock<W>, now: Reading) -> Belief {
    let follower = &followed.follower;
    match follower.doubt(now) {
        Some(doubt) => Belief::Doubted(doubt),
        None if follower.learned().is_some() => Belief::Believed,
        // An answer is forgotten where a later one says that its clock is not synchronised, and where none shows an update since
        // the host's clock was set.
        None => match followed.is_synchronised {
            Some(false) => Belief::Doubted(Doubt::Unsynchronised),
            Some(true) => Belief::Doubted(Doubt::Set),
            None => Belief::NoAnswer,
        },
    }
}
