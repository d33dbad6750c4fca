//! What is logged of the lines of commands.
ghost use Rattle.std.specs.Prelude.{◌≡◌, option_copied};
ghost use Rattle.ntp_reports.specs.Logging.{customers_after};

use ntp_host::{HostClocks, Log, Priority};
use ntp_reports::{Ask, LineAllowance, customers_after, write_logged_line};
use ntp_service::{Command, LineOutcome};
use std::io::Write;

/// A minute, in nanoseconds.
const MINUTE_NANOS: u64 = 60_000_000_000;

/// Logs lines of commands, and counts the customers that are enrolled. In a minute it logs ten lines that were done at most, ten
/// that were not, and one for those of either kind that were held back. Lines that are done once more at a start are not logged.
#[derive(Drop)]
pub struct CommandLog<'a, W: Write + Drop> {
    log: Log<W>,
    // Those of lines that were done, and of others.
    done: LineAllowance,
    others: LineAllowance,
    clocks: &'a HostClocks,
    customers: u64,
}

impl<'a, W: Write + Drop> CommandLog<'a, W> {
    /// Logs to `log`. Nobody is enrolled yet.
    pub fn new(log: Log<W>, clocks: &'a HostClocks) -> CommandLog<'a, W>
        ensures log { result.log ≡ log }
        ensures customers { result.customers ≡ 0 }
    {
        CommandLog {
            log,
            done: LineAllowance::new(),
            others: LineAllowance::new(),
            clocks,
            customers: 0,
        }
    }

    /// How many customers are enrolled.
    pub fn customers(&self) -> u64
        ensures { result ≡ self.now.customers }
    {
        self.customers
    }

    /// How many lines of the log were dropped.
    pub fn dropped(&self) -> u64 {
        self.log.dropped
    }

    /// Hears what became of the line with a number, and of its command, if it is one.
    pub fn line(&mut self, number: u64, command: Option<&Command>, outcome: LineOutcome)
        ensures { self.new.customers ≡ customers_after self.old.customers (option_copied command.entry) outcome }
    {
        self.customers = customers_after(self.customers, command, outcome);
        self.log_line(number, command, outcome);
    }

    // Logs it, where that may be written.
    fn log_line(&mut self, number: u64, command: Option<&Command>, outcome: LineOutcome)
        ensures { self.new.customers ≡ self.old.customers }
    {
        let minute = self.clocks.ticks.get() / MINUTE_NANOS;
        let (asked, priority, what) = match outcome {
            LineOutcome::Done if self.clocks.began.get().is_none() => return,
            LineOutcome::Done => (self.done.ask(minute), Priority::Information, "done"),
            LineOutcome::Refused(_) | LineOutcome::Faulty(_) => {
                (self.others.ask(minute), Priority::Warning, "not done")
            }
        };
        match asked {
            Ask::Hold => return,
            Ask::Say => {}
            Ask::SayWithMore(held) => {
                let line = self.log.begin(priority);
                let _ = write!(line, "commands: {held} more lines {what}");
                self.log.end();
            }
        }
        let line = self.log.begin(priority);
        let _ = write_logged_line(line, number, command, outcome);
        self.log.end();
    }
}
