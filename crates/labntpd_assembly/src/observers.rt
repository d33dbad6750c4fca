//! The observers of a daemon.
ghost use Rattle.std.specs.Prelude.{◌≡◌};
ghost use Rattle.ntp_reports.specs.{declared.counts.Counts.Counts, Counted.nothing_counted, Counted.CountsOneMore};
ghost use Rattle.ntp_reports.specs.Observing.{AnswersThis, ReportsThis, IsLeftByTurns, customers_then};

use crate::command_log::CommandLog;
use ntp_host::{HostClocks, Log};
use ntp_reports::{AnswerLines, Counts, CustomerCounts};
use ntp_service::{Command, LineOutcome, Observer, TurnOutcome};
use std::io::{self, Write};

/// An observer of a daemon that the log and the statistics can report on.
pub trait DaemonObserver: Observer {
    // What it has counted.
    ghost counted: { Self → Counts };

    /// What was counted so far.
    fn counts(&self) -> &Counts
        ensures { result.now ≡ counted self.now };

    /// Why an answer to a line of commands could not be written, if one could not.
    fn answers_fault(&self) -> Option<io::Error>;

    /// How many customers are enrolled.
    fn customers(&self) -> u64;

    /// What customers were answered, where that is kept.
    fn reports(&self) -> Option<&CustomerCounts>;

    /// How many of its lines of the log were dropped.
    fn log_lines_dropped(&self) -> u64;
}

/// It counts, answers lines of commands, logs them, and reports of customers.
#[derive(Drop)]
pub struct ReportingObserver<'a, L: Write + Drop, W> {
    counts: Counts,
    answers: Option<AnswerLines<W>>,
    log: CommandLog<'a, L>,
    reports: Option<CustomerCounts>,
}

impl<'a, L: Write + Drop, W: Write + Drop> ReportingObserver<'a, L, W> {
    /// The observer of a daemon that has no customer yet. Nothing is counted. `answers` answers lines, and `reports` reports on
    /// customers, where these are given.
    pub fn new(
        answers: Option<AnswerLines<W>>,
        log: Log<L>,
        clocks: &'a HostClocks,
        reports: Option<CustomerCounts>,
    ) -> ReportingObserver<'a, L, W>
        ensures counts { result.counts ≡ nothing_counted }
        ensures answers { result.answers ≡ answers }
        ensures log { result.log.log ≡ log }
        ensures customers { result.log.customers ≡ 0 }
        ensures reports { result.reports ≡ reports }
    {
        ReportingObserver {
            counts: Counts::new(),
            answers,
            log: CommandLog::new(log, clocks),
            reports,
        }
    }
}

impl<'a, L: Write + Drop, W: Write + Drop> Observer for ReportingObserver<'a, L, W> {
    ghost heard = { λ old new observation. CountsOneMore old.counts new.counts observation
        × AnswersThis W.contents observation old.answers new.answers
        × (new.log.customers ≡ customers_then old.log.customers observation) × IsLeftByTurns observation old.log new.log
        × ReportsThis observation old.reports new.reports };

    fn line(&mut self, number: u64, command: Option<&Command>, outcome: LineOutcome) {
        self.counts.count_line(outcome);
        if let Some(answers) = &mut self.answers {
            answers.line(number, outcome);
        }
        self.log.line(number, command, outcome);
        if let Some(reports) = &mut self.reports {
            reports.line(number, command, outcome);
        }
    }

    fn turn(&mut self, outcome: &TurnOutcome) {
        self.counts.count_turn(outcome);
        if let Some(reports) = &mut self.reports {
            reports.turn(outcome);
        }
    }
}

impl<'a, L: Write + Drop, W: Write + Drop> DaemonObserver for ReportingObserver<'a, L, W> {
    ghost counted = { λ o. o.counts };

    fn counts(&self) -> &Counts {
        &self.counts
    }

    fn answers_fault(&self) -> Option<io::Error> {
        self.answers.as_ref()?.fault()
    }

    fn customers(&self) -> u64 {
        self.log.customers()
    }

    fn reports(&self) -> Option<&CustomerCounts> {
        self.reports.as_ref()
    }

    fn log_lines_dropped(&self) -> u64 {
        self.log.dropped()
    }
}
