//! Which number a key gets, which change needs a second word, and what the ages of reports say.
ghost use Rattle.std.specs.Prelude.{◌≡◌, ◌≢◌, ◌↔◌, ◌≤◌, ◌<◌, ◌+◌, ◌*◌, ℕ, Contains, IfSome, IfNone, IsSome, IsTrue};
ghost use Rattle.ntp_service.specs.Registry.{holder_of};
ghost use Rattle.ntp_clerk.specs.Confirming.{number_to_retire, IsNextFree};

use crate::wanted::Terms;
use ntp_service::Service;
use std::num::NonZero;

/// The seconds for which uses are counted before they say which key is in use: a day.
const GROUND_SECONDS: u64 = 86_400;

/// The seconds within which labntpd carries out and reports a line.
const SETTLED_SECONDS: u64 = 2;

/// The seconds after which labntpd, if it serves, has written a report anew: it does so each minute, and ten seconds after a failure.
const RENEWED_SECONDS: u64 = 75;

/// The lowest key number that was never used and that nobody holds; where there is none, the lowest that nobody holds. Nothing where
/// each is held.
pub fn number_for_a_key(service: &Service, used: &[u16]) -> Option<NonZero<u16>>
    ensures next { IfSome result (λ number. IsNextFree used.now service.now number.value) }
    ensures none { IfNone result ((number : ℕ) → 1 ≤ number → number ≤ 65535 → IsSome (holder_of service.now number)) }
{
    let mut lowest = None;
    for number in 1..=u16::MAX {
        if service.holder(number).is_none() {
            if !used.contains(&number) {
                return NonZero::<u16>::new(number);
            }
            lowest = lowest.or(NonZero::<u16>::new(number));
        }
    }
    lowest
}

/// The number of the key that is retired: the one that is named, else that of the older key.
pub fn number_to_retire(terms: &Option<Terms>, named: Option<NonZero<u16>>) -> Option<NonZero<u16>>
    ensures { result ≡ number_to_retire terms.now named }
{
    match (named, terms) {
        (Some(number), _) => Some(number),
        (None, Some(terms)) => Some(terms.older.number),
        (None, None) => None,
    }
}

/// Whether another key than the one that is retired was used, in a count of a day or more: `used` are the numbers of those that were.
pub fn may_retire(retired: NonZero<u16>, used: &[u16], counted_seconds: u64) -> bool
    ensures { IsTrue result ↔ ((86400 ≤ counted_seconds) × ((number : ℕ) × Contains used.now number × (number ≢ retired.value))) }
{
    counted_seconds >= GROUND_SECONDS && used.iter().any(|number| *number != retired.get())
}

/// Whether more than a quarter of the enrolments would end.
pub fn ends_many(ending: usize, enrolled: usize) -> bool
    ensures { IsTrue result ↔ (enrolled < 4 * ending) }
{
    ending > enrolled / 4
}

/// Whether a report of labntpd has what all lines came to, by when both files were written, in seconds.
pub fn is_settled(report: u64, commands: u64) -> bool
    ensures { IsTrue result ↔ (commands + 2 < report) }
{
    report > commands.saturating_add(SETTLED_SECONDS)
}

/// Whether labntpd may serve, by when its report was written: else it would have written another one by now, in seconds.
pub fn may_be_renewed(report: u64, now: u64) -> bool
    ensures { IsTrue result ↔ (now ≤ report + 75) }
{
    now <= report.saturating_add(RENEWED_SECONDS)
}
