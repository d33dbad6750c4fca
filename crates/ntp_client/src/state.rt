//! The state that replies tell.
ghost use Rattle.std.specs.Prelude.{◌≡◌, true, option_copied};
ghost use Rattle.ntp_client.specs.InForce.{unsynchronised, is_read, told_with, precision_told, grown, in_force};
ghost use Rattle.ntp_client.specs.Taking.{is_synchronised};

use crate::doubt::doubt_of;
use crate::{ClockAnswer, ClockLimits, Reading};
use ntp_packet::{ClockFields, Moment, Short, Stamp};
use ntp_reply::Reference;

/// The leap indicator of an unsynchronised clock (RFC 5905, 7.3).
pub(crate) const UNSYNCHRONISED_LEAP: u8 = 3;

/// The stratum of an unsynchronised clock (RFC 5905, 7.3).
const UNSYNCHRONISED_STRATUM: u8 = 16;

/// The precision of a clock that is not known, as the binary logarithm of seconds (profile).
const PRECISION: i8 = -20;

/// The best precision that is told of the host's clock: 2^-16 seconds, in which its readings may be late (profile).
const BEST_PRECISION: i8 = -16;

/// The greatest dispersion, 16 seconds, in units of 2^-16 seconds (RFC 5905, 7.2).
const MOST_DISPERSION: Short = Short(16 << 16);

/// The reference state of an unsynchronised clock: leap 3, stratum 16, and a dispersion of 16 seconds (RFC 5905,
/// 7.2, 7.3; its precision of 2^-20 seconds: profile).
#[must_use]
pub fn reference_unsynchronised() -> Reference
    ensures { result ≡ unsynchronised }
{
    Reference::of(ClockFields {
        leap: UNSYNCHRONISED_LEAP,
        stratum: UNSYNCHRONISED_STRATUM,
        precision: PRECISION,
        root_delay: Short(0),
        root_dispersion: MOST_DISPERSION,
        reference_id: [0; 4],
        reference: Stamp(0),
    })
    .unwrap()
}

/// The reference state that is told in a turn: that of an unsynchronised clock where the clock could not be read for its receipt,
/// which is told as stamp 0 of era 0; else `state` (profile).
#[must_use]
pub fn reference_where_read(receipt: Option<Moment>, state: Reference) -> Reference
    ensures { result ≡ told_with receipt state }
{
    match receipt {
        Some(clock) if !is_read(clock) => reference_unsynchronised(),
        _ => state,
    }
}

/// Whether a moment is one that the host's clock showed: stamp 0 of era 0 stands for a clock that could not be read (profile).
pub fn is_read(clock: Moment) -> bool
    ensures { result ≡ is_read clock }
{
    clock.era != 0 || clock.stamp.0 != 0
}

/// The reference state that replies tell, by a reading of the host's clocks: that of the answer that was learned, with its dispersion
/// grown since, while the answer is believed; else that of an unsynchronised clock (profile).
#[must_use]
pub fn state_in_force(
    limits: &ClockLimits,
    learned: Option<&ClockAnswer>,
    now: Reading,
) -> Reference
    ensures { result ≡ in_force limits.now (option_copied learned.entry) now }
{
    match learned {
        Some(answer) if doubt_of(limits, answer, now).is_none() => grown(answer, now),
        _ => reference_unsynchronised(),
    }
}

// The state of an answer, with its dispersion grown since.
fn grown(answer: &ClockAnswer, now: Reading) -> Reference
    requires { is_synchronised answer.now.state.leap answer.now.state.stratum ≡ true }
    ensures { result ≡ grown answer.now now }
{
    let fields = ClockFields {
        precision: precision_told(answer.state.precision()),
        root_dispersion: Short(answer.dispersion(now)),
        ..answer.state.fields()
    };
    Reference::of(fields).unwrap()
}

// The precision that is told of the host's clock.
#[tactic(auto, unfolding(crate::specs::InForce::precision_told))]
fn precision_told(precision: i8) -> i8
    ensures { result ≡ precision_told precision }
{
    precision.max(BEST_PRECISION)
}
