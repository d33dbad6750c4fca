//! Stamps that differ from others that are in use.
ghost use Rattle.std.specs.Prelude.{◌≡◌, ◌<◌, ◌≤◌, ◌^◌, List, length};
ghost use Rattle.ntp_packet.specs.Fresh.{fresh, IsFresh, TellsTaken};

use crate::Stamp;

/// The first of `s`, `s + 1`, `s + 2`, .. modulo 2^64, in units of 2^-32 seconds, that is not 0 and is
/// not in `avoid` (profile).
#[must_use]
#[tactic(auto, using(crate::proofs::Freshness::fresh_from_IsFresh))]
pub fn fresh(s: Stamp, avoid: &[Stamp]) -> Stamp
    ensures value { result ≡ fresh s avoid.now }
    ensures least { IsFresh s avoid.now result }
{
    first_free(s, avoid.len(), |stamp| avoid.contains(&stamp))
}

/// The first of `s`, `s + 1`, `s + 2`, .. modulo 2^64 that is not 0, which means an unknown time, and is not
/// taken, as `is_taken` says; at most `most_taken` stamps are.
#[tactic(auto, using(crate::proofs::Freshness::freshness))]
pub fn first_free<F: Fn(Stamp) -> bool>(s: Stamp, most_taken: usize, is_taken: F) -> Stamp
    requires callable { F.IsAlwaysCallable is_taken }
    requires few { most_taken < 2 ^ 63 }
    ensures { (taken : List Stamp) → TellsTaken (F.post is_taken) taken → length taken ≤ most_taken
        → IsFresh s taken result }
{
    let mut candidate = s;
    // With 0, at most `most_taken + 1` stamps are not free: where as many candidates are not, the next one is.
    for _step in 0..most_taken + 1 {
        if candidate.0 != 0 && !is_taken(candidate) {
            return candidate;
        }
        candidate = Stamp(candidate.0.wrapping_add(1));
    }
    candidate
}
