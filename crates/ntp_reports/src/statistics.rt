//! Statistics in the text form of Prometheus.
ghost use Rattle.std.specs.Prelude.{◌≡◌, ◌++◌, OnOk, map, flat_map};
ghost use Rattle.std.specs.Io.KnownBytes.{Appends};
ghost use Rattle.ntp_reports.specs.Statistics.{seconds_text, sample, labelled, belief_word, beliefs, files_ok};
ghost use Rattle.ntp_reports.specs.Statistics.{samples_text, metric_text, short_nanos, rows, HaveRows, WritesStatistics};

use crate::counted_kinds::{Labelled, answers, commands};
use crate::counts::Counts;
use crate::kind::Kind;
use ntp_client::Doubt;
use ntp_packet::Short;
use std::io::{self, Write};

/// How many nanoseconds a second has.
pub(crate) const SECOND_NANOS: u64 = 1_000_000_000;

/// Whether the state that the host's clock daemon tells is believed, and why not.
#[derive(Clone, Copy, Debug, PartialEq, Eq)]
pub enum Belief {
    /// It is.
    Believed,
    /// Nobody is asked: the state is that of the configuration.
    Fixed,
    /// There is no answer.
    NoAnswer,
    /// The last answer is doubted.
    Doubted(Doubt),
}

/// Each belief.
const BELIEFS: [Belief; 9] = [
    Belief::Believed,
    Belief::Fixed,
    Belief::NoAnswer,
    Belief::Doubted(Doubt::Old),
    Belief::Doubted(Doubt::Unsynchronised),
    Belief::Doubted(Doubt::ReferenceOld),
    Belief::Doubted(Doubt::ReferenceAhead),
    Belief::Doubted(Doubt::Far),
    Belief::Doubted(Doubt::Set),
];

impl Belief {
    /// Its word in the statistics and the log.
    pub fn word(self) -> &'static str
        ensures { result.now ≡ belief_word self }
    {
        match self {
            Belief::Believed => "believed",
            Belief::Fixed => "fixed",
            Belief::NoAnswer => "no-answer",
            Belief::Doubted(Doubt::Old) => "old",
            Belief::Doubted(Doubt::Unsynchronised) => "unsynchronised",
            Belief::Doubted(Doubt::ReferenceOld) => "reference-old",
            Belief::Doubted(Doubt::ReferenceAhead) => "reference-ahead",
            Belief::Doubted(Doubt::Far) => "far",
            Belief::Doubted(Doubt::Set) => "set",
        }
    }
}

/// The state of the clock that replies tell.
#[derive(Clone, Copy)]
pub struct ClockGauges {
    /// Whether replies say that the clock is synchronised.
    pub is_synchronised: bool,
    /// How old what is known of the clock is, in nanoseconds. `None` where nothing is known.
    pub age: Option<u64>,
    /// The stratum that replies tell.
    pub stratum: u8,
    /// The leap indicator that replies tell.
    pub leap: u8,
    /// The root delay that replies tell.
    pub root_delay: Short,
    /// The root dispersion that replies tell.
    pub root_dispersion: Short,
    /// How far the daemon's clock was from the host's at its last answer, in nanoseconds. `None` where there is none.
    pub offset: Option<i64>,
    /// How long ago the daemon's clock was set by that answer and the host's clock, in nanoseconds. `None` where it was never set too.
    pub reference_age: Option<i64>,
    /// The limit on that age, in nanoseconds. `None` where there is none.
    pub most_reference_age: Option<u64>,
    /// The root distance of that answer by now, whether it is believed or not, in nanoseconds.
    pub root_distance: Option<u64>,
    /// The limit on that distance. `None` where nobody is asked.
    pub most_root_distance: Option<Short>,
    /// Whether the daemon is believed, and why not.
    pub belief: Belief,
}

/// Which of the files can be read or written.
#[derive(Clone, Copy)]
pub struct FileGauges {
    /// The commands file can be read, and its lines are carried out.
    pub commands: bool,
    /// The answers file can be written, or none is named; the next two are to be read so too.
    pub answers: bool,
    /// The statistics file could be written when it last was.
    pub statistics: bool,
    /// The customers file could be written when it last was, with every customer.
    pub customers: bool,
}

/// What is told beside the counts of turns and lines.
#[derive(Clone, Copy)]
pub struct Gauges<'a> {
    /// Datagrams that were dropped, since they may have waited for too long.
    pub stale: u64,
    /// Datagrams that the kernel dropped, since the socket had no room for them.
    pub kernel_drops: u64,
    /// The socket's receive buffer, in octets as the kernel counts.
    pub receive_buffer: u64,
    /// How long a datagram can have waited in the queue at most since the statistics were written last, in nanoseconds. `None` where that
    /// is not known.
    pub queue_wait: Option<u64>,
    /// Replies that were not sent, since the socket would have waited. They count as failed sends too.
    pub send_would_wait: u64,
    /// Times that the queue was swept.
    pub sweeps: u64,
    /// Lines of the commands file that are applied.
    pub commands_lines: u64,
    /// How many octets these lines have.
    pub commands_octets: u64,
    /// Whether another commands file stands there, a shorter one, or one that was written anew: no line is carried out until a restart.
    pub commands_changed: bool,
    /// Customers that are enrolled.
    pub customers: u64,
    /// The state of the clock.
    pub clock: ClockGauges,
    /// Lines of the log that were not written.
    pub log_lines_dropped: u64,
    /// Which files can be read or written.
    pub files: FileGauges,
    /// Times that a file began to fail, at reading or writing.
    pub files_unreadable: u64,
    /// When the server was started, in nanoseconds since 1970.
    pub start_time: u64,
    /// The version of the server, without quotes or backslashes.
    pub version: &'a str,
}

// The type of a metric that only grows.
const COUNTER: &str = "counter";

// The type of one that comes and goes.
const GAUGE: &str = "gauge";

// What a metric has behind its name. A time that there is not is `NaN`.
#[derive(Clone, Copy)]
enum Samples<'a> {
    Number(u64),
    // In nanoseconds.
    Seconds(Option<u64>),
    SignedSeconds(Option<i64>),
    Answers,
    Commands,
    Belief(Belief),
    Files(FileGauges),
    Version(&'a str),
}

// A metric, with its type and its help.
#[derive(Clone, Copy)]
struct Metric<'a> {
    sort: &'static str,
    name: &'static str,
    samples: Samples<'a>,
    help: &'static str,
}

// Metrics: of each its type, its name, its samples and its help.
macro_rules! metrics {
    ($($sort:ident $name:literal = $samples:ident $(($value:expr))?, $help:literal;)*) => {
        [$(Metric {
            sort: $sort,
            name: $name,
            samples: Samples::$samples $(($value))?,
            help: $help,
        }),*]
    };
}

/// Writes the counts and gauges in the text form of Prometheus, each with its help and its type. It takes no memory.
///
/// Seconds are decimals with nine places. What is not known, and a limit that is not set, is `NaN`.
///
/// # Errors
///
/// The first write that fails.
pub fn write_statistics<W: Write>(
    out: &mut W,
    counts: &Counts,
    gauges: &Gauges<'_>,
) -> io::Result<()>
    ensures { OnOk result (WritesStatistics counts.now gauges.now (W.contents out.old) (W.contents out.new)) }
{
    for metric in &metrics(counts, gauges) {
        write_metric(out, counts, metric)?;
    }
    Ok(())
}

// The metrics, in the order of the file.
fn metrics<'a>(counts: &Counts, gauges: &Gauges<'a>) -> [Metric<'a>; 32]
    ensures { HaveRows (rows counts.now gauges.now) result }
{
    let clock = &gauges.clock;
    metrics! {
        COUNTER "labntp_answers_total" = Answers,
            "Answers to datagrams.";
        COUNTER "labntp_receive_failures_total" = Number(counts.count(Kind::NothingReceived)),
            "Calls that received no datagram.";
        COUNTER "labntp_send_failures_total" = Number(counts.count(Kind::NotSent)),
            "Replies that could not be sent.";
        COUNTER "labntp_stale_total" = Number(gauges.stale),
            "Datagrams that were dropped, since they may have waited for too long.";
        COUNTER "labntp_kernel_drops_total" = Number(gauges.kernel_drops),
            "Datagrams that the kernel dropped for want of room.";
        COUNTER "labntp_departures_noted_total" = Number(counts.count(Kind::Noted)),
            "Replies whose departure was noted.";
        GAUGE "labntp_receive_buffer_octets" = Number(gauges.receive_buffer),
            "The socket's receive buffer, as the kernel counts.";
        GAUGE "labntp_queue_wait_seconds" = Seconds(gauges.queue_wait),
            "How long a datagram can have waited at most.";
        COUNTER "labntp_send_would_wait_total" = Number(gauges.send_would_wait),
            "Replies that were not sent, since the socket would have waited.";
        COUNTER "labntp_sweeps_total" = Number(gauges.sweeps),
            "Times that the queue was swept.";
        COUNTER "labntp_commands_total" = Commands,
            "Lines of commands.";
        GAUGE "labntp_commands_lines" = Number(gauges.commands_lines),
            "Lines of the commands file that are applied.";
        GAUGE "labntp_commands_octets" = Number(gauges.commands_octets),
            "Octets of these lines.";
        GAUGE "labntp_commands_changed" = Number(u64::from(gauges.commands_changed)),
            "Whether the commands file is no longer the one that was read: no line is carried out until a restart.";
        GAUGE "labntp_customers" = Number(gauges.customers),
            "Customers that are enrolled.";
        GAUGE "labntp_clock_synchronised" = Number(u64::from(clock.is_synchronised)),
            "Whether replies say that the clock is synchronised.";
        GAUGE "labntp_clock_age_seconds" = Seconds(clock.age),
            "How old what is known of the clock is.";
        GAUGE "labntp_clock_stratum" = Number(u64::from(clock.stratum)),
            "The stratum that replies tell.";
        GAUGE "labntp_clock_leap" = Number(u64::from(clock.leap)),
            "The leap indicator that replies tell.";
        GAUGE "labntp_clock_root_delay_seconds" = Seconds(Some(nanos_of(clock.root_delay))),
            "The root delay that replies tell.";
        GAUGE "labntp_clock_root_dispersion_seconds" = Seconds(Some(nanos_of(clock.root_dispersion))),
            "The root dispersion that replies tell.";
        GAUGE "labntp_clock_offset_seconds" = SignedSeconds(clock.offset),
            "How far the daemon's clock was from the host's at its last answer.";
        GAUGE "labntp_clock_reference_age_seconds" = SignedSeconds(clock.reference_age),
            "How long ago the daemon's clock was set, by its last answer.";
        GAUGE "labntp_clock_most_reference_age_seconds" = Seconds(clock.most_reference_age),
            "Up to which of these ages it is believed.";
        GAUGE "labntp_clock_root_distance_seconds" = Seconds(clock.root_distance),
            "The root distance of the daemon's last answer by now.";
        GAUGE "labntp_clock_most_root_distance_seconds" = Seconds(clock.most_root_distance.map(nanos_of)),
            "Up to which of these distances it is believed.";
        GAUGE "labntp_clock_believed" = Belief(clock.belief),
            "Whether the clock's daemon is believed, or why not.";
        COUNTER "labntp_log_lines_dropped_total" = Number(gauges.log_lines_dropped),
            "Lines of the log that were not written.";
        COUNTER "labntp_files_unreadable_total" = Number(gauges.files_unreadable),
            "Times that a file began to fail, at reading or writing.";
        GAUGE "labntp_file_ok" = Files(gauges.files),
            "Whether a file can be read or written.";
        GAUGE "labntp_start_time_seconds" = Seconds(Some(gauges.start_time)),
            "When the server was started, since 1970.";
        GAUGE "labntp_build_info" = Version(gauges.version),
            "The version of the server.";
    }
}

// Writes a metric: its help, its type and its samples.
fn write_metric<W: Write>(out: &mut W, counts: &Counts, metric: &Metric<'_>) -> io::Result<()>
    ensures { OnOk result (Appends (W.contents out.old) (W.contents out.new) (metric_text counts.now metric.now)) }
{
    let (name, help, sort) = (metric.name, metric.help, metric.sort);
    write!(out, "# HELP {name} {help}\n# TYPE {name} {sort}\n")?;
    write_samples(out, counts, name, metric.samples)
}

// Writes the samples of a metric.
fn write_samples<W: Write>(
    out: &mut W,
    counts: &Counts,
    name: &str,
    samples: Samples<'_>,
) -> io::Result<()>
    ensures { OnOk result (Appends (W.contents out.old) (W.contents out.new) (samples_text counts.now name.now samples.entry)) }
{
    match samples {
        Samples::Number(number) => writeln!(out, "{name} {number}"),
        Samples::Seconds(Some(nanos)) => write_seconds(out, name, "", nanos),
        Samples::SignedSeconds(Some(nanos)) => {
            let sign = if nanos < 0 { "-" } else { "" };
            write_seconds(out, name, sign, nanos.unsigned_abs())
        }
        Samples::Seconds(None) | Samples::SignedSeconds(None) => writeln!(out, "{name} NaN"),
        Samples::Answers => write_labelled(out, name, &answers(counts)),
        Samples::Commands => write_labelled(out, name, &commands(counts)),
        Samples::Belief(belief) => write_labelled(out, name, &beliefs(belief)),
        Samples::Files(files) => write_labelled(out, name, &files_ok(files)),
        Samples::Version(version) => write_labelled(out, name, &[("version", version, 1)]),
    }
}

// Writes a sample of a time in seconds with nine decimals.
fn write_seconds<W: Write>(out: &mut W, name: &str, sign: &str, nanos: u64) -> io::Result<()>
    ensures { OnOk result (Appends (W.contents out.old) (W.contents out.new) (sample name.now (sign.now ++ seconds_text nanos))) }
{
    let whole = nanos / SECOND_NANOS;
    let rest = nanos % SECOND_NANOS;
    writeln!(out, "{name} {sign}{whole}.{rest:09}")
}

// Writes samples with labels.
fn write_labelled<W: Write>(out: &mut W, name: &str, samples: &[Labelled<'_>]) -> io::Result<()>
    ensures { OnOk result (Appends (W.contents out.old) (W.contents out.new)
        (flat_map (labelled name.now) (map (λ s. (s.0.now, s.1.now, s.2)) samples.now))) }
{
    for (key, word, number) in samples {
        writeln!(out, "{name}{{{key}=\"{word}\"}} {number}")?;
    }
    Ok(())
}

// Returns all beliefs, with 1 at the one that there is.
#[tactic(auto, unfolding(crate::specs::Statistics::beliefs))]
fn beliefs(belief: Belief) -> [Labelled<'static>; 9]
    ensures { map (λ s. (s.0.now, s.1.now, s.2)) result ≡ beliefs belief }
{
    BELIEFS.map(|each| ("why", each.word(), u64::from(each.word() == belief.word())))
}

// Returns the files, with 1 at those that are well.
#[tactic(auto, unfolding(crate::specs::Statistics::files_ok))]
fn files_ok(files: FileGauges) -> [Labelled<'static>; 4]
    ensures { map (λ s. (s.0.now, s.1.now, s.2)) result ≡ files_ok files }
{
    [
        ("file", "commands", u64::from(files.commands)),
        ("file", "answers", u64::from(files.answers)),
        ("file", "statistics", u64::from(files.statistics)),
        ("file", "customers", u64::from(files.customers)),
    ]
}

// A time in the short format (2^16 units are a second), in nanoseconds, rounded down.
fn nanos_of(time: Short) -> u64
    ensures { result ≡ short_nanos time }
{
    u64::from(time.0) * SECOND_NANOS / 65_536
}
