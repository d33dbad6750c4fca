//! Differences of stamps, and what they tell of moments.
ghost use Rattle.std.specs.Prelude.{◌≡◌, ◌↔◌, ◌^◌, ◌≤ℤ◌, ◌<ℤ◌, pos, IsSome, IfSome};
ghost use Rattle.ntp_packet.specs.Moment.{units};
ghost use Rattle.ntp_packet.specs.Difference.{difference, units_near, IsDifference};

use crate::{Moment, Stamp};

/// `a` minus `b`, in units of 2^-32 seconds: modulo 2^64, and read as a signed number (RFC 5905, 6). It
/// is right while the moments are less than half an era apart.
#[must_use]
#[tactic(auto, using(crate::proofs::Signed::IsDifference_difference), unfolding(crate::specs::Difference::difference))]
pub fn difference(a: Stamp, b: Stamp) -> i64
    ensures value { result ≡ difference a b }
    ensures signed { IsDifference a b result }
{
    a.0.wrapping_sub(b.0).cast_signed()
}

/// The moment with a stamp that lies half an era at most from a pivot: its units are the pivot's and
/// the difference of the stamps (RFC 5905, 6). `None` exactly where its era is below 0 or above
/// 2^32 - 1.
#[must_use]
pub fn near(stamp: Stamp, pivot: Moment) -> Option<Moment>
    ensures found { IsSome result ↔ ((pos 0 ≤ℤ units_near stamp pivot) × (units_near stamp pivot <ℤ pos (2 ^ 96))) }
    ensures value { IfSome result (λ moment. pos (units moment) ≡ units_near stamp pivot) }
    ensures stamp { IfSome result (λ moment. moment.stamp ≡ stamp) }
{
    let later = difference(stamp, pivot.stamp) >= 0;
    let above = stamp.0 >= pivot.stamp.0;
    let era = match (later, above) {
        (true, false) => pivot.era.checked_add(1)?,
        (false, true) => pivot.era.checked_sub(1)?,
        _ => pivot.era,
    };
    Some(Moment { era, stamp })
}
