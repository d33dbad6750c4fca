//! Whether a server is well, by limits, and the line of a check, as monitoring reads it.
ghost use Rattle.std.specs.Prelude.{◌≡◌};
ghost use Rattle.ntp_query.specs.Check.{passed_by, verdict_of, check_status};

use crate::outcome_text::{trust_text, write_figures};
use crate::{Answer, Outcome};
use std::fmt;

/// Limits of what a server tells: nothing is limited that is `None`. Times are in nanoseconds.
#[derive(Clone, Copy)]
pub struct Limits {
    /// Of the size of the offset.
    pub offset: Option<u64>,
    /// Of the stratum.
    pub stratum: Option<u64>,
    /// Of the root distance.
    pub root_distance: Option<u64>,
}

/// What is limited.
#[derive(Clone, Copy)]
pub enum Measure {
    Offset,
    Stratum,
    RootDistance,
}

/// What is wrong with a server.
#[derive(Clone, Copy)]
pub enum Cause {
    /// No query gave a sample.
    NoSample,
    /// This is above its limit.
    Above(Measure),
    /// A query gave no sample, of several.
    Missing,
}

/// Whether a server is well.
#[derive(Clone, Copy)]
pub enum Verdict {
    Well,
    Warning(Cause),
    Critical(Cause),
}

/// Whether a server is well by two sets of limits, the sample of least delay, if there is one, and how many queries gave none. It is
/// critical that there is no sample, or that one of the first limits is passed; one of the second ones, or a query without a sample, is a
/// warning. The first that applies is told.
pub fn verdict_of(most: &Limits, warn: &Limits, least: Option<Answer>, without: u32) -> Verdict
    ensures { result ≡ verdict_of most.now warn.now least without }
{
    let Some(answer) = least else {
        return Verdict::Critical(Cause::NoSample);
    };
    match (passed_by(most, &answer), passed_by(warn, &answer)) {
        (Some(measure), _) => Verdict::Critical(Cause::Above(measure)),
        (None, Some(measure)) => Verdict::Warning(Cause::Above(measure)),
        (None, None) if without > 0 => Verdict::Warning(Cause::Missing),
        (None, None) => Verdict::Well,
    }
}

// The first of the measures that is above its limit.
fn passed_by(limits: &Limits, answer: &Answer) -> Option<Measure>
    ensures { result ≡ passed_by limits.now answer.now }
{
    let offset = answer.offset().0.unsigned_abs();
    let stratum = u64::from(answer.clock.stratum);
    let distance = answer.root_distance().0.unsigned_abs();
    if limits.offset.is_some_and(|limit| offset > limit) {
        Some(Measure::Offset)
    } else if limits.stratum.is_some_and(|limit| stratum > limit) {
        Some(Measure::Stratum)
    } else if limits.root_distance.is_some_and(|limit| distance > limit) {
        Some(Measure::RootDistance)
    } else {
        None
    }
}

/// The exit status of a check: 0 well, 1 a warning, 2 critical (Monitoring Plugins).
pub fn check_status(verdict: Verdict) -> u8
    ensures { result ≡ check_status verdict }
{
    match verdict {
        Verdict::Well => 0,
        Verdict::Warning(_) => 1,
        Verdict::Critical(_) => 2,
    }
}

/// A check, as monitoring reads it (Monitoring Plugins). It prints in a line without its end.
#[derive(Clone, Copy)]
pub struct Check {
    /// Whether the server is well.
    pub verdict: Verdict,
    /// The sample of least delay, if there is one.
    pub least: Option<Answer>,
    /// What came of the last query.
    pub latest: Outcome,
}

impl fmt::Display for Check {
    fn fmt<W: fmt::Write>(&self, f: &mut fmt::Formatter<W>) -> fmt::Result {
        let (word, why) = match self.verdict {
            Verdict::Well => ("OK", ""),
            Verdict::Warning(cause) => ("WARNING", cause_text(cause)),
            Verdict::Critical(cause) => ("CRITICAL", cause_text(cause)),
        };
        write!(f, "NTP {word}: {why}")?;
        let Some(answer) = self.least else {
            return write!(f, "{}", self.latest);
        };
        f.write_str(trust_text(&answer))?;
        write_figures(f, &answer)?;
        let (offset, delay) = (answer.offset(), answer.delay());
        let (stratum, root_distance) = (answer.clock.stratum, answer.root_distance());
        write!(
            f,
            " | offset={offset}s delay={delay}s stratum={stratum} root_distance={root_distance}s"
        )
    }
}

// What is wrong.
fn cause_text(cause: Cause) -> &'static str {
    match cause {
        Cause::NoSample => "no sample, ",
        Cause::Above(Measure::Offset) => "offset above its limit, ",
        Cause::Above(Measure::Stratum) => "stratum above its limit, ",
        Cause::Above(Measure::RootDistance) => "root distance above its limit, ",
        Cause::Missing => "not every query gave a sample, ",
    }
}
