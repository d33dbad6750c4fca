//! What is reported of one customer.
ghost use Rattle.std.specs.Prelude.{◌≡◌, [], ◌∷◌, ◌==◌, option_map, option_and_then};
ghost use Rattle.ntp_reports.specs.Customers.{new_key, enrolled_again, rolled_over, retired, report_after, key_numbered, signing_in, used_by, Takes};

use crate::counts::Counts;
use ntp_packet::Moment;
use ntp_reply::Answer;
use ntp_service::{Command, TurnOutcome};

/// A key number of a customer, and when it signed last.
#[derive(Clone, Copy, Debug, PartialEq, Eq)]
pub struct KeyUse {
    /// The key's number.
    pub number: u16,
    /// The receipt of the last query that was signed under it and got the time or RATE, if one did since the customer has the key.
    pub last_signed: Option<Moment>,
}

/// What is reported of one customer: what it was answered, by which line it was enrolled, and when its keys signed.
#[derive(Clone, Copy, Debug, PartialEq, Eq)]
pub struct CustomerReport {
    counts: Counts,
    line: u64,
    // Its keys, the older one first. Where it has one, that is the first.
    first: Option<KeyUse>,
    second: Option<KeyUse>,
}

impl CustomerReport {
    /// What it was answered.
    pub fn counts(&self) -> &Counts
        ensures { result.now ≡ self.now.counts }
    {
        &self.counts
    }

    /// The number of the line of commands by which it was enrolled last.
    pub fn line(&self) -> u64
        ensures { result ≡ self.now.line }
    {
        self.line
    }

    /// When a query that was signed under a key number, and got the time or RATE, came last.
    pub fn last_signed(&self, number: u16) -> Option<Moment>
        ensures { result ≡ option_and_then (λ key. key.last_signed) (key_numbered self.now number) }
    {
        self.key(number)?.last_signed
    }

    /// The numbers of its keys, the older one's first.
    pub fn numbers(&self) -> [Option<u16>; 2]
        ensures { result ≡ option_map (λ key. key.number) self.now.first ∷ option_map (λ key. key.number) self.now.second ∷ [] }
    {
        [
            self.first.map(|key| key.number),
            self.second.map(|key| key.number),
        ]
    }

    // The key of a number.
    fn key(&self, number: u16) -> Option<KeyUse>
        ensures { result ≡ key_numbered self.now number }
    {
        match self.first {
            Some(first) if first.number == number => Some(first),
            _ => self.second.filter(|second| second.number == number),
        }
    }

    // Reports a turn of the customer's.
    pub(crate) fn take(&mut self, outcome: &TurnOutcome)
        ensures { Takes outcome.now self.old self.new }
    {
        self.counts.count_turn(outcome);
        let signing = signing_in(outcome);
        self.first = used(self.first, signing);
        self.second = used(self.second, signing);
    }
}

// What is reported of a customer that a line enrols with a key of this number; what it was answered before stays.
fn enrolled(before: Option<CustomerReport>, number: u16, line: u64) -> CustomerReport
    ensures { result ≡ enrolled_again before number line }
{
    CustomerReport {
        counts: before.map_or_else(Counts::new, |report| report.counts),
        line,
        first: Some(new_key(number)),
        second: None,
    }
}

// A key that has signed nothing.
fn new_key(number: u16) -> KeyUse
    ensures { result ≡ new_key number }
{
    KeyUse {
        number,
        last_signed: None,
    }
}

// What is reported of a customer, if anything is, after its command was carried out by a line.
pub(crate) fn report_after(
    before: Option<CustomerReport>,
    command: &Command,
    line: u64,
) -> Option<CustomerReport>
    ensures { result ≡ report_after before command.now line }
{
    match command {
        Command::Enrol { number, .. } => Some(enrolled(before, number.get(), line)),
        Command::Revoke { .. } => Some(CustomerReport {
            first: None,
            second: None,
            ..before?
        }),
        Command::Rollover { number, .. } => Some(rolled_over(before?, number.get())),
        Command::Retire { number, .. } => Some(retired(before?, number.get())),
        _ => before,
    }
}

// One key more, which has signed nothing.
fn rolled_over(report: CustomerReport, number: u16) -> CustomerReport
    ensures { result ≡ rolled_over report number }
{
    let key = Some(new_key(number));
    CustomerReport {
        first: report.first.or(key),
        second: report.first.and(key).or(report.second),
        ..report
    }
}

// Without the key of a number.
fn retired(report: CustomerReport, number: u16) -> CustomerReport
    ensures { result ≡ retired report number }
{
    let first = report.first.filter(|key| key.number != number);
    let second = report.second.filter(|key| key.number != number);
    CustomerReport {
        first: first.or(second),
        second: first.and(second),
        ..report
    }
}

// That a query was signed, and got the time or RATE: the number of its key, and when it came.
#[derive(Clone, Copy, Debug, PartialEq, Eq)]
struct Signing {
    number: u16,
    receipt: Moment,
}

// Under which key number the query of a turn was signed that got the time or RATE, and when it came.
fn signing_in(outcome: &TurnOutcome) -> Option<Signing>
    ensures { result ≡ signing_in outcome.now }
{
    match outcome {
        TurnOutcome::Answered {
            arrival,
            answer: Answer::Time { reply, .. } | Answer::Rate(reply),
            ..
        } => Some(Signing {
            number: reply.number,
            receipt: arrival.receipt,
        }),
        _ => None,
    }
}

// A key after a turn in which a query was signed, or none was.
fn used(key: Option<KeyUse>, signing: Option<Signing>) -> Option<KeyUse>
    ensures { result ≡ option_map (used_by signing) key }
{
    match (key, signing) {
        (Some(key), Some(signing)) if key.number == signing.number => Some(KeyUse {
            last_signed: Some(signing.receipt),
            ..key
        }),
        _ => key,
    }
}
