//! What is reported of each customer.
ghost use Rattle.std.specs.Prelude.{◌≡◌, false, None, option_copied, option_map, OnOk, OnErr, length, slice_get};
ghost use Rattle.std.specs.{Map.Iter.deref_pair, Bool.OnFalse};
ghost use Rattle.ntp_service.specs.{declared.address.Address.Address, Commands.address_named};
ghost use Rattle.ntp_reports.specs.Reported.{report_at, AreSame, CarriedOut, ReportsLine, ReportsTurn};

use crate::customer_report::{CustomerReport, report_after};
use indexmap::IndexMap;
use indexmap::map::Iter;
use ntp_service::{Address, Command, LineOutcome, TurnOutcome};
use std::alloc::{AllocError, Allocator, Global};
use std::hash::{BuildHasherDefault, FoldHasher};

// How addresses are hashed, as the register's are: only customers have entries, so no sender of datagrams lengthens a look-up.
type Hashing = BuildHasherDefault<FoldHasher>;

/// What is reported of each customer, by its address: it counts the turns of each, and notes when its keys signed.
///
/// An address has a report from its first enrolment on, also after it is revoked. The memory of a report is taken at that enrolment. A
/// turn takes none: it looks its address up once.
#[derive(Drop)]
pub struct CustomerCounts<A: Allocator = Global> {
    reports: IndexMap<Address, CustomerReport, Hashing, A>,
    has_missed: bool,
}

impl<A: Allocator + Copy> CustomerCounts<A> {
    /// Nothing is reported of anybody. Memory for reports will be taken from `alloc`.
    pub fn new(alloc: A) -> Self
        ensures reports { (address : Address) → report_at result address ≡ None }
        ensures missed { result.has_missed ≡ false }
    {
        CustomerCounts {
            reports: IndexMap::new(alloc),
            has_missed: false,
        }
    }

    /// What is reported of the customer at an address: nothing where it was never enrolled.
    pub fn report(&self, address: Address) -> Option<&CustomerReport>
        ensures { option_copied result ≡ report_at self.now address }
    {
        self.reports.get(&address)
    }

    /// Whether a customer has no report, or not all of it, since memory was wanted at its enrolment and refused.
    pub fn has_missed(&self) -> bool
        ensures { result ≡ self.now.has_missed }
    {
        self.has_missed
    }

    /// Of how many addresses something is reported.
    pub fn len(&self) -> usize
        ensures { result ≡ length self.now.reports.entries }
    {
        self.reports.len()
    }

    /// Each address with what is reported of it, in the order of first enrolments.
    pub fn iter(&self) -> Iter<'_, Address, CustomerReport>
        ensures { result ≡ self.now.reports.entries }
    {
        self.reports.iter()
    }

    /// An address and what is reported of it, by its place in the order of first enrolments, counted from 0.
    pub fn nth(&self, place: usize) -> Option<(&Address, &CustomerReport)>
        ensures { option_map deref_pair result ≡ slice_get self.now.reports.entries place }
    {
        self.reports.get_index(place)
    }

    /// Reports that a line carried out a command, if it did, or notes that memory was refused.
    pub fn line(&mut self, number: u64, command: Option<&Command>, outcome: LineOutcome)
        ensures reported { ReportsLine number (option_copied command.entry) outcome self.old self.new }
        ensures missed { OnFalse self.new.has_missed (self.old.has_missed ≡ false) }
    {
        if let (Some(command), LineOutcome::Done) = (command, outcome)
            && self.carried_out(command, number).is_err()
        {
            self.has_missed = true;
        }
    }

    /// Reports a turn, where the address of its datagram has a report.
    pub fn turn(&mut self, outcome: &TurnOutcome)
        ensures { ReportsTurn outcome.now self.old self.new }
    {
        if let TurnOutcome::Answered { arrival, .. } = outcome
            && let Some(report) = self.reports.get_mut(&arrival.address)
        {
            report.take(outcome);
        }
    }

    // Reports that a command was carried out by a line.
    fn carried_out(&mut self, command: &Command, line: u64) -> Result<(), AllocError>
        ensures ok { OnOk result (CarriedOut self.old self.new command.now line) }
        ensures absent { OnErr result (report_at self.old (address_named command.now) ≡ None) }
        ensures err { OnErr result (AreSame self.old self.new) }
        ensures missed { self.new.has_missed ≡ self.old.has_missed }
    {
        let address = command.address();
        let before = self.report(address).copied();
        if let Some(report) = report_after(before, command, line) {
            self.reports.insert(address, report)?;
        }
        Ok(())
    }
}
