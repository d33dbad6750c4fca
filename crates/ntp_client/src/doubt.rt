//! Why an answer is not believed.
ghost use Rattle.std.specs.Prelude.{◌≡◌};
ghost use Rattle.ntp_client.specs.InForce.{doubt_of, was_set_lately};

use crate::judging::is_synchronised;
use crate::reading::{SECOND_UNITS, apart, nano_units};
use crate::{ClockAnswer, ClockLimits, Reading};

/// Why an answer of the host's clock daemon is not believed: the first of these that applies (profile).
#[derive(Clone, Copy, Debug, PartialEq, Eq)]
pub enum Doubt {
    /// It is too old.
    Old,
    /// It says that its clock is not synchronised.
    Unsynchronised,
    /// Its clock was not set, or longer ago than the limit.
    ReferenceOld,
    /// It says that its clock was set after it left.
    ReferenceAhead,
    /// Its root distance is too large.
    Far,
    /// The host's clock was set since the daemon last showed an update.
    Set,
}

// Why an answer is not believed, by a reading of the host's clocks, if it is not. By as much as a step may be its clock may have been set
// after it left, and the host's since the daemon last showed an update.
pub(crate) fn doubt_of(limits: &ClockLimits, answer: &ClockAnswer, now: Reading) -> Option<Doubt>
    ensures { result ≡ doubt_of limits.now answer.now now }
{
    if answer.age(now.ticks) >= limits.valid_for {
        Some(Doubt::Old)
    } else if !is_synchronised(answer.state.leap(), answer.state.stratum()) {
        Some(Doubt::Unsynchronised)
    } else if !was_set_lately(limits, answer, now) {
        Some(Doubt::ReferenceOld)
    } else if nano_units(answer.state.reference(), answer.sent)
        > i128::from(limits.most_step) * SECOND_UNITS
    {
        Some(Doubt::ReferenceAhead)
    } else if answer.root_distance_twice(now) > 2 * u64::from(limits.most_root_distance.0) {
        Some(Doubt::Far)
    } else if apart(answer.base, now) > u128::from(limits.most_step) << 32 {
        Some(Doubt::Set)
    } else {
        None
    }
}

// Whether the clock of an answer was set, and not longer ago than the limit, where there is one.
fn was_set_lately(limits: &ClockLimits, answer: &ClockAnswer, now: Reading) -> bool
    ensures { result ≡ was_set_lately limits.now answer.now now }
{
    let since = i128::from(answer.reference_age(now));
    answer.state.reference().0 != 0
        && limits
            .most_reference_age
            .is_none_or(|most| since <= i128::from(most) * SECOND_UNITS)
}
