//! What the daemon does beside serving: statistics, the customers file and its log.
ghost use Rattle.std.specs.Prelude.{◌≡◌};
ghost use Rattle.ntp_reports.specs.{declared.kind.Kind.TheVariants.NothingReceived, Counted.count_at};

use crate::customers_file::CustomersFile;
use crate::daemon_clock::DaemonClock;
use crate::files::{DaemonCommands, FileFault, WatchedFiles};
use crate::news::News;
use crate::observers::DaemonObserver;
use crate::parts::{Daemon, DaemonPort, Host, StartupFacts};
use crate::replaced_file::replace_file;
use labntpd_files::command_line::VERSION;
use ntp_client::Reading;
use ntp_host::{HostClocks, KernelDrops, Priority, moment_now, pause};
use ntp_packet::Moment;
use ntp_reports::{Belief, ClockGauges, Counts, CustomerCounts, Gauges, Kind, write_statistics};
use ntp_server::Reporter;
use ntp_service::Service;
use std::alloc::AllocError;
use std::fs::Files;
use std::io::{self, Write};
use std::net::SocketAddrV4;
use std::time::{Clock, SystemTime, UNIX_EPOCH};

/// A second, in nanoseconds.
const SECOND_NANOS: u64 = 1_000_000_000;

/// How many seconds lie between two writings of the statistics.
const STATISTICS_PERIOD: u64 = 10;

/// How many seconds lie between two lines of totals.
const TOTALS_PERIOD: u64 = 3_600;

/// How many customers are written at once beside datagrams, so that a large file holds up none of them for long.
const PIECE: usize = 64;

/// How long after such a piece the next one is written, in nanoseconds: a hundredth of a second.
const PIECE_PERIOD: u64 = 10_000_000;

/// How many customers are written after a wait in which no datagram came.
const IDLE_PIECE: usize = 1_024;

/// After how many seconds a clock's daemon that has not answered yet is logged as such.
const CLOCK_PATIENCE: u64 = 2;

/// How many receives fail one after another, as at a socket that is shut down, before each is followed by a pause.
const MOST_FAILED_IN_A_ROW: u64 = 100;

/// How long a pause lasts, in thousandths of a second.
const PAUSE_MILLISECONDS: i32 = 30;

/// How much room the statistics have, in octets.
const STATISTICS_ROOM: usize = 16_384;

// The path of the statistics file, that of the file beside it in which they are written, room for their text, and why they could
// not be written last.
#[derive(Drop)]
struct StatisticsFile<'a> {
    path: &'a str,
    beside: String,
    text: Vec<u8>,
    fault: Option<FileFault>,
}

impl<'a> StatisticsFile<'a> {
    // Replaces the statistics by these.
    fn replace<R: Files>(
        &mut self,
        files: &R,
        counts: &Counts,
        gauges: &Gauges<'_>,
    ) -> io::Result<()> {
        self.text.clear();
        write_statistics(&mut self.text, counts, gauges)?;
        replace_file(files, self.beside.as_str(), self.path, &self.text)
    }
}

// The files that are written, where there are some; and how many datagrams the kernel dropped.
#[derive(Drop)]
struct Written<'a, R: Files> {
    statistics: Option<StatisticsFile<'a>>,
    customers: Option<CustomersFile<'a, R>>,
    drops: KernelDrops<R>,
}

// What is due when.
#[derive(Clone, Copy)]
struct Times {
    // The start, in nanoseconds since 1970.
    start: u64,
    // What the monotonic clock shows when something is to be done next, in nanoseconds; and when the next piece of the customers
    // file may be written beside datagrams.
    next: u64,
    piece: u64,
    // How many whole seconds have passed, and after how many statistics and totals are due.
    seconds: u64,
    statistics: u64,
    totals: u64,
}

impl Times {
    // Whether another second has started by what the monotonic clock shows.
    fn has_come(&mut self, clocks: &HostClocks) -> bool {
        let ticks = clocks.ticks.get();
        if ticks < self.next {
            return false;
        }
        let first = clocks.began.get().unwrap_or(ticks);
        clocks.began.set(Some(first));
        self.seconds = ticks.saturating_sub(first) / SECOND_NANOS;
        self.next = self
            .seconds
            .saturating_add(1)
            .saturating_mul(SECOND_NANOS)
            .saturating_add(first);
        true
    }
}

// What was seen of the server and of its host.
#[derive(Clone, Copy)]
struct Seen<'a> {
    files: WatchedFiles<'a>,
    // How many receives have failed, one after another.
    failed_in_a_row: u64,
    // How long a datagram that was judged since the statistics were written last can have waited at most, in nanoseconds.
    queue_wait: u64,
    // What the monotonic clock showed, at the last turn, after which the next datagram came; nothing where that is not known.
    next_came: Option<u64>,
    // How many receives had failed, and how many stale datagrams had been dropped, when the server was shown last.
    failed: u64,
    stale: u64,
}

/// Writes statistics, customers and the log, once a second at most; a large customers file in pieces.
#[derive(Drop)]
pub struct Housekeeping<'a, R: Files + Clock, L: Write + Drop> {
    host: Host<'a, R>,
    startup: StartupFacts,
    news: News<L>,
    written: Written<'a, R>,
    times: Times,
    seen: Seen<'a>,
}

impl<'a, R: Files + Clock, L: Write + Drop> Housekeeping<'a, R, L> {
    /// What is done beside a server that begins now, and logged to `log`. The room for its texts is taken here, and none later.
    pub fn new(
        host: Host<'a, R>,
        log: L,
        startup: StartupFacts,
    ) -> Result<Housekeeping<'a, R, L>, AllocError> {
        let news = News::new(host.alloc, log, startup.form)?;
        let written = written_by(&host, startup.bound.local)?;
        let start = nanos_since_1970(host.rt);
        let files = WatchedFiles::of(host.configuration);
        Ok(Housekeeping {
            host,
            startup,
            news,
            written,
            times: Times {
                start,
                next: 0,
                piece: 0,
                seconds: 0,
                statistics: 0,
                totals: TOTALS_PERIOD,
            },
            seen: Seen {
                files,
                failed_in_a_row: 0,
                queue_wait: 0,
                next_came: None,
                failed: 0,
                stale: 0,
            },
        })
    }

    /// Logs the start lines.
    pub fn say_start(&mut self) {
        let wanted = self.host.configuration.receive_buffer;
        self.news.say_start(&self.startup, wanted);
    }

    // Returns whether datagrams can be received.
    fn is_receiving(&self) -> bool {
        self.seen.failed_in_a_row < MOST_FAILED_IN_A_ROW
    }

    // What is done once a second.
    fn each_second<P, C, S, O>(&mut self, server: &Daemon<P, C, S, O>)
    where
        P: DaemonPort,
        C: DaemonCommands,
        S: DaemonClock,
        O: DaemonObserver,
    {
        let (rt, clocks) = (self.host.rt, self.host.clocks);
        let seconds = self.times.seconds;
        let now = Reading {
            clock: moment_now(rt),
            ticks: clocks.read(rt),
        };
        let state = server.reference.state(now);
        // In the first second nothing was written yet.
        if self.times.statistics == 0 {
            let (lines, customers) = (server.applied, server.observer.customers());
            self.news.say(
                Priority::Information,
                format_args!("commands: {lines} lines read, {customers} customers"),
            );
        }
        // A clock's daemon that was just asked may not have answered yet.
        if state.belief != Belief::NoAnswer || seconds >= CLOCK_PATIENCE {
            self.news.see_clock(&state);
        }
        self.news.see_stale(server.port.stale());
        let is_receiving = self.is_receiving();
        self.news.see_receiving(is_receiving);
        self.see_files(&server.commands.source, &server.observer);
        self.written.drops.look(rt);
        if seconds >= self.times.statistics {
            let notice = if self.times.statistics == 0 {
                "READY=1"
            } else {
                "WATCHDOG=1"
            };
            self.times.statistics = seconds.saturating_add(STATISTICS_PERIOD);
            self.write_statistics(server, server.reference.gauges(&state, now));
            if let Some(manager) = &self.startup.manager {
                manager.hear(notice);
            }
        }
        if seconds >= self.times.totals {
            self.times.totals = seconds.saturating_add(TOTALS_PERIOD);
            self.say_totals(server.observer.counts(), server.port.stale());
        }
    }

    // Begins to write the customers, where it is time to; and logs of each file what is wrong from now on, or is no longer.
    fn see_files<C: DaemonCommands, O: DaemonObserver>(&mut self, commands: &C, observer: &O) {
        let (seconds, done) = (self.times.seconds, observer.counts().count(Kind::Done));
        let written = &mut self.written;
        let customers = match &mut written.customers {
            Some(file) => file.begin_in_time(seconds, done),
            None => None,
        };
        let statistics = written.statistics.as_ref().and_then(|file| file.fault);
        let (news, files) = (&mut self.news, &mut self.seen.files);
        let fault = commands.fault();
        if fault.is_none() {
            news.see_nearly_full(files.commands.path, commands.octets());
        }
        news.see_file(&mut files.commands, fault.map(FileFault::Commands));
        let unwritten = observer.answers_fault().map(FileFault::Unwritten);
        news.see_file(&mut files.answers, unwritten);
        news.see_file(&mut files.statistics, statistics);
        news.see_file(&mut files.customers, customers);
    }

    // Goes on to write the customers, where that was started: few of them beside datagrams, and more while none comes.
    fn write_customers(
        &mut self,
        reports: &CustomerCounts,
        service: &Service,
        receipt: Option<Moment>,
    ) {
        let ticks = self.host.clocks.ticks.get();
        if receipt.is_some() && ticks < self.times.piece {
            return;
        }
        self.times.piece = ticks.saturating_add(PIECE_PERIOD);
        let piece = if receipt.is_none() { IDLE_PIECE } else { PIECE };
        if let Some(file) = &mut self.written.customers {
            file.go_on(reports, service, piece);
        }
    }

    // Keeps how long the datagram of a turn can have waited, where that is known and longer than what is kept: it came after the
    // moment that was known at the last turn, unless others were dropped before it. The next one can have `waited` by now.
    fn see_wait(&mut self, stale: u64, waited: Option<u64>, receipt: Option<Moment>) {
        let now = self.host.clocks.ticks.get();
        if receipt.is_some()
            && stale == self.seen.stale
            && let Some(came) = self.seen.next_came
        {
            self.seen.queue_wait = self.seen.queue_wait.max(now.saturating_sub(came));
        }
        self.seen.next_came = waited.map(|waited| now.saturating_sub(waited));
    }

    // Writes the statistics, where there is a file for them.
    fn write_statistics<P, C, S, O>(&mut self, server: &Daemon<P, C, S, O>, clock: ClockGauges)
    where
        P: DaemonPort,
        C: DaemonCommands,
        S: DaemonClock,
        O: DaemonObserver,
    {
        let (commands, dropped) = (&server.commands.source, self.news.log.dropped);
        let gauges = Gauges {
            stale: server.port.stale(),
            kernel_drops: self.written.drops.drops,
            receive_buffer: u64::from(self.startup.bound.buffer),
            queue_wait: Some(self.seen.queue_wait),
            send_would_wait: server.port.port().would_wait(),
            sweeps: server.port.sweeps(),
            commands_lines: server.applied,
            commands_octets: commands.octets(),
            commands_changed: commands.fault().is_some_and(|fault| fault.is_final()),
            customers: server.observer.customers(),
            clock,
            log_lines_dropped: dropped.saturating_add(server.observer.log_lines_dropped()),
            files: self.seen.files.gauges(),
            files_unreadable: self.news.failures,
            start_time: self.times.start,
            version: VERSION,
        };
        self.seen.queue_wait = 0;
        let Some(file) = &mut self.written.statistics else {
            return;
        };
        let written = file.replace(self.host.rt, server.observer.counts(), &gauges);
        file.fault = written.err().map(FileFault::Unwritten);
    }

    // Logs what was done so far.
    fn say_totals(&mut self, counts: &Counts, stale: u64) {
        let hours = self.times.seconds / TOTALS_PERIOD;
        let (basic, interleaved) = (counts.count(Kind::Basic), counts.count(Kind::Interleaved));
        let time = basic.saturating_add(interleaved);
        let rate = counts.count(Kind::Rate);
        let drops = self.written.drops.drops;
        self.news.say(
            Priority::Information,
            format_args!(
                "totals of {hours} hours: time {time}, rate {rate}, stale {stale}, dropped by the kernel {drops}"
            ),
        );
    }
}

impl<
    'a,
    P: DaemonPort,
    C: DaemonCommands,
    S: DaemonClock,
    O: DaemonObserver,
    R: Files + Clock,
    L: Write + Drop,
> Reporter<Daemon<P, C, S, O>> for Housekeeping<'a, R, L> {
    // It knows how many receives of a server have failed, and how many stale datagrams it has dropped.
    ghost knows = { λ h server. (h.seen.failed ≡ count_at (O.counted server.observer) NothingReceived) × (h.seen.stale ≡ server.port.counts.dropped) };

    fn report(&mut self, server: &Daemon<P, C, S, O>, receipt: Option<Moment>) {
        let failed = server.observer.counts().count(Kind::NothingReceived);
        let in_a_row = self.seen.failed_in_a_row.saturating_add(1);
        self.seen.failed_in_a_row = if failed == self.seen.failed {
            0
        } else {
            in_a_row
        };
        self.see_wait(server.port.stale(), server.port.waited(), receipt);
        if let Some(reports) = server.observer.reports() {
            self.write_customers(reports, &server.service, receipt);
        }
        if self.times.has_come(self.host.clocks) {
            self.news.seconds = self.times.seconds;
            self.each_second(server);
        }
        if !self.is_receiving() {
            pause(PAUSE_MILLISECONDS);
        }
        self.seen.failed = failed;
        self.seen.stale = server.port.stale();
    }
}

// The files that a daemon at this address writes by its configuration, and what the kernel dropped of its datagrams.
fn written_by<'a, R: Files + Clock>(
    host: &Host<'a, R>,
    local: SocketAddrV4,
) -> Result<Written<'a, R>, AllocError> {
    let (rt, alloc, configuration) = (host.rt, host.alloc, host.configuration);
    let statistics = match &configuration.statistics {
        None => None,
        Some(path) => Some(StatisticsFile {
            path: path.as_str(),
            beside: format!(in alloc; "{path}.new")?,
            text: Vec::with_capacity(alloc, STATISTICS_ROOM)?,
            fault: None,
        }),
    };
    let customers = match &configuration.customers {
        None => None,
        Some(path) => Some(CustomersFile::new(rt, alloc, path.as_str())?),
    };
    Ok(Written {
        statistics,
        customers,
        drops: KernelDrops::new(alloc, local)?,
    })
}

// The time of the host's clock, in nanoseconds since 1970; 0 where it cannot be read.
fn nanos_since_1970<C: Clock>(clock: &C) -> u64 {
    let Ok(now) = SystemTime::now(clock) else {
        return 0;
    };
    now.duration_since(UNIX_EPOCH).map_or(
        0,
        |since| u64::try_from(since.as_nanos()).unwrap_or(u64::MAX),
    )
}
