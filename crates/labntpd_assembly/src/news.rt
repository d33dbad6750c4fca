//! Log lines for changes of the daemon's state. A `LineAllowance` bounds the lines of each kind in a minute.

use crate::daemon_clock::{ClockState, is_synchronised};
use crate::files::{FileFault, WatchedFile, have_same_words};
use crate::parts::StartupFacts;
use labntpd_files::command_line::VERSION;
use ntp_admin::Escaped;
use ntp_host::{BoundAt, Log, LogForm, Priority, is_nearly_full, write_nearly_full};
use ntp_reports::{Ask, LineAllowance};
use std::alloc::{AllocError, Global};
use std::fmt::Display;
use std::io::Write;

/// A minute's seconds.
const MINUTE: u64 = 60;

/// The leap indicator where no leap second is announced (RFC 5905, 7.3).
const NO_LEAP: u8 = 0;

// What was logged last.
#[derive(Clone, Copy)]
struct Logged {
    // The state of the clock, and the leap second that it announces.
    clock: Option<ClockState>,
    leap: u8,
    stale: u64,
    is_receiving: bool,
    is_nearly_full: bool,
}

// The kinds of lines, each with an allowance of its own.
#[derive(Clone, Copy)]
enum LineKind {
    Clock = 0,
    Stale = 1,
    Files = 2,
    Receiving = 3,
}

/// The log of a daemon, but for its lines of commands.
#[derive(Drop)]
pub(crate) struct News<L: Write + Drop> {
    pub log: Log<L>,
    /// How many seconds have passed.
    pub seconds: u64,
    /// How often a file began to fail.
    pub failures: u64,
    allowances: [LineAllowance; 4],
    logged: Logged,
}

impl<L: Write + Drop> News<L> {
    /// Nothing is logged yet. The room for a line is taken here.
    pub(crate) fn new(alloc: Global, log: L, form: LogForm) -> Result<News<L>, AllocError> {
        Ok(News {
            log: Log::new(alloc, log, form)?,
            seconds: 0,
            failures: 0,
            allowances: [LineAllowance::new(); 4],
            logged: Logged {
                clock: None,
                leap: NO_LEAP,
                stale: 0,
                is_receiving: true,
                is_nearly_full: false,
            },
        })
    }

    // Returns whether a line of a kind may be written now, and counts it. Asked only for a line that is due, so that none is
    // counted as held.
    fn may_say(&mut self, kind: LineKind) -> bool {
        let minute = self.seconds / MINUTE;
        let allowance = &mut self.allowances[kind as usize];
        allowance.has_room(minute) && allowance.ask(minute) != Ask::Hold
    }

    /// Logs the start lines. `wanted` octets of a receive buffer are configured.
    pub(crate) fn say_start(&mut self, startup: &StartupFacts, wanted: u32) {
        let BoundAt { local, buffer, .. } = startup.bound;
        let line = self.log.begin(Priority::Information);
        let _ = write!(line, "labntpd {VERSION}: at {local}, configuration ");
        for octet in startup.digest {
            let _ = write!(line, "{octet:02x}");
        }
        self.log.end();
        self.say(
            Priority::Information,
            format_args!(
                "receive buffer: {wanted} octets wanted, {buffer} given, as the kernel counts"
            ),
        );
    }

    /// Writes a line.
    pub(crate) fn say<D: Display + Drop>(&mut self, priority: Priority, words: D) {
        let _ = write!(self.log.begin(priority), "{words}");
        self.log.end();
    }

    /// Logs whether the clock is synchronised and why, of one that is also its stratum and its reference, where other words were
    /// logged last; and the leap second that it announces, where that is another.
    pub(crate) fn see_clock(&mut self, state: &ClockState) {
        if !is_logged_as(&self.logged.clock, state) {
            self.say_state(state);
        }
        let leap = state.reference.leap();
        if is_synchronised(&state.reference) && self.logged.leap != leap {
            self.say_leap(leap);
        }
    }

    // Logs the state of the clock.
    fn say_state(&mut self, state: &ClockState) {
        if !self.may_say(LineKind::Clock) {
            return;
        }
        self.logged.clock = Some(*state);
        let why = state.belief.word();
        if !is_synchronised(&state.reference) {
            self.logged.leap = NO_LEAP;
            self.say(
                Priority::Warning,
                format_args!("clock: not synchronised: {why}"),
            );
            return;
        }
        let [a, b, c, d] = state.reference.id();
        let stratum = state.reference.stratum();
        self.say(
            Priority::Notice,
            format_args!(
                "clock: synchronised, stratum {stratum}, reference {a:02x}{b:02x}{c:02x}{d:02x}: {why}"
            ),
        );
    }

    // Logs which leap second is announced.
    fn say_leap(&mut self, leap: u8) {
        if !self.may_say(LineKind::Clock) {
            return;
        }
        self.logged.leap = leap;
        self.say(Priority::Notice, format_args!("clock: {}", leap_word(leap)));
    }

    /// Logs that many receives have failed one after another, or that this has ended, where that was not logged last.
    pub(crate) fn see_receiving(&mut self, is_receiving: bool) {
        if is_receiving == self.logged.is_receiving || !self.may_say(LineKind::Receiving) {
            return;
        }
        self.logged.is_receiving = is_receiving;
        if is_receiving {
            self.say(Priority::Notice, "receive: no call fails any longer");
        } else {
            self.say(
                Priority::Error,
                "receive: a hundred calls failed one after another; a pause follows each",
            );
        }
    }

    /// Logs how many stale datagrams were dropped since that was logged last.
    pub(crate) fn see_stale(&mut self, stale: u64) {
        let dropped = stale.saturating_sub(self.logged.stale);
        if dropped == 0 || !self.may_say(LineKind::Stale) {
            return;
        }
        self.logged.stale = stale;
        self.say(
            Priority::Warning,
            format_args!("stale: {dropped} datagrams dropped"),
        );
    }

    /// Logs that the commands file at `path`, which has `octets` octets, is nearly full, where that was not logged last.
    pub(crate) fn see_nearly_full(&mut self, path: &str, octets: u64) {
        let is_nearly_full = is_nearly_full(octets);
        if is_nearly_full == self.logged.is_nearly_full
            || is_nearly_full && !self.may_say(LineKind::Files)
        {
            return;
        }
        self.logged.is_nearly_full = is_nearly_full;
        if is_nearly_full {
            let line = self.log.begin(Priority::Warning);
            let _ = write!(line, "commands file {}: ", Escaped(path));
            write_nearly_full(line, octets);
            self.log.end();
        }
    }

    /// Notes what is wrong with a file, counts that where it was not so before, and logs it, or that nothing is, where something
    /// else was logged last.
    pub(crate) fn see_file(&mut self, file: &mut WatchedFile<'_>, fault: Option<FileFault>) {
        if fault.is_some() && !have_same_words(&fault, &file.fault) {
            self.failures = self.failures.saturating_add(1);
        }
        file.fault = fault;
        if have_same_words(&fault, &file.logged) || !self.may_say(LineKind::Files) {
            return;
        }
        let (name, path) = (file.name, Escaped(file.path));
        let again = match file.logged {
            Some(FileFault::Commands(_)) => "is read again",
            _ => "is written again",
        };
        file.logged = fault;
        match fault {
            Some(fault) => {
                self.say(Priority::Error, format_args!("{name} file {path}: {fault}"));
            }
            None => self.say(
                Priority::Notice,
                format_args!("{name} file {path}: {again}"),
            ),
        }
    }
}

// Returns whether a state is logged in the same words as the one that was logged last.
fn is_logged_as(last: &Option<ClockState>, state: &ClockState) -> bool {
    let Some(last) = last else {
        return false;
    };
    let (was, is) = (&last.reference, &state.reference);
    if is_synchronised(is) {
        is_synchronised(was) && was.stratum() == is.stratum() && was.id() == is.id()
    } else {
        !is_synchronised(was) && last.belief == state.belief
    }
}

// The words for the leap indicator of a synchronised clock (RFC 5905, 7.3).
fn leap_word(leap: u8) -> &'static str {
    match leap {
        NO_LEAP => "no leap second is announced",
        1 => "a leap second is announced: the last minute of the day has 61 seconds",
        _ => "a leap second is announced: the last minute of the day has 59 seconds",
    }
}
