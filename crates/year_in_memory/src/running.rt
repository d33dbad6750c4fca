//! The assembly of the daemon, run over parts in memory.
ghost use Rattle.std.specs.Prelude.{◌≡◌, IfOk};
ghost use Rattle.ntp_port.specs.Port.{failed_calls};

use crate::files::{ANSWERS, COMMANDS, Disk, LOG, MemoryFile};
use crate::host::MemoryHost;
use crate::judging::Expected;
use crate::script::{Given, Script};
use crate::wire::YearWire;
use labntpd_assembly::{
    Assembly, DaemonClock, DaemonObserver, DaemonPort, Host, Parts, ReportingObserver, ServeFault,
    StartupFacts,
};
use labntpd_files::read_configuration;
use ntp_host::{
    BoundAt, ClockSource, CommandsFile, HostClocks, HostFile, Log, LogForm, SystemClockWire,
    UdpPort, emptied_file,
};
use ntp_port::{FreshPort, QueueWatch};
use ntp_reply::Reference;
use ntp_reports::{AnswerLines, Counts, CustomerCounts};
use std::alloc::Global;
use std::cell::Cell;
use std::fs::Files;
use std::io::{self, LineWriter, Write};
use std::net::{Ipv4Addr, SocketAddrV4};
use std::test::Fail;
use std::time::Clock;
use test_support::{MemoryQueue, MemoryWire};

/// The configuration of the daemon. What it names of the host beside files is not there.
const CONFIGURATION: &str = "listen = \"192.0.2.1:123\"\n\
    commands = \"/commands\"\n\
    answers = \"/answers\"\n\
    statistics = \"/statistics\"\n\
    customers = \"/customers\"\n\
    [clock]\n\
    source = \"fixed\"\n\
    reference = \"0001ec00000000000000104e495354ec00000000000000\"\n";

/// What is found when the script is over.
#[derive(Drop)]
pub struct Found {
    /// Whether just the expected replies were sent.
    pub are_replies_right: bool,
    /// What was counted.
    pub counts: Counts,
    /// How many datagrams were dropped as stale.
    pub stale: u64,
    /// How many lines of commands were applied.
    pub applied: u64,
}

// The parts of the daemon.
type YearParts<'a, 'd> = Parts<
    UdpPort<YearWire<'a, 'd>>,
    CommandsFile<'a, HostFile<'a, MemoryHost<'d>>>,
    ClockSource<SystemClockWire<'a, &'a MemoryHost<'d>>>,
    ReportingObserver<'a, MemoryFile<'d>, LineWriter<MemoryFile<'d>>>,
    MemoryFile<'d>,
>;

/// Runs the assembly of the daemon by a script, on a disk with no file, and tells what is found then.
pub fn run(alloc: Global, disk: &Disk, script: Script, expected: &Expected) -> Result<Found, Fail> {
    let memory_host = MemoryHost {
        disk,
        nanos: Cell::new(0),
    };
    disk.made(COMMANDS)?;
    let clocks = HostClocks::new();
    let Ok(configuration) = read_configuration(alloc, CONFIGURATION) else {
        return Err(Fail::new("the configuration cannot be read"));
    };
    let Script {
        reference,
        given,
        ..
    } = script;
    let Given {
        turns,
        due,
        readings,
        lines,
    } = given;
    let host = Host {
        rt: &memory_host,
        alloc,
        clocks: &clocks,
        configuration: &configuration,
    };
    let wire = MemoryWire::new(alloc, turns)?;
    let queue = MemoryQueue::new(alloc, wire, due, readings, 0)?;
    let wire = YearWire::new(queue, host.rt, host.clocks, &lines);
    judged(host, wire, reference, expected)
}

// What is found when the script is over.
fn judged<'a, 'd>(
    host: Host<'a, MemoryHost<'d>>,
    wire: YearWire<'a, 'd>,
    reference: Reference,
    expected: &Expected,
) -> Result<Found, Fail> {
    let parts = year_parts(&host, wire, reference)?;
    let startup = known_at_start();
    let Ok(assembly) = served(host, parts, startup, expected.turns) else {
        return Err(Fail::new("the daemon does not begin to serve"));
    };
    let daemon = &assembly.daemon;
    Ok(Found {
        are_replies_right: expected.are_sent(daemon.port.port().wire.sent()),
        counts: *daemon.observer.counts(),
        stale: daemon.port.stale(),
        applied: daemon.applied,
    })
}

// The assembly of these parts, which has served for `turns` turns. It is generic in them, since the borrow checker does not follow the
// call of parts that each have two lifetimes.
fn served<'a, P, S, O, R, L>(
    host: Host<'a, R>,
    parts: Parts<P, CommandsFile<'a, HostFile<'a, R>>, S, O, L>,
    startup: StartupFacts,
    turns: u64,
) -> Result<Assembly<'a, P, CommandsFile<'a, HostFile<'a, R>>, S, O, R, L>, ServeFault>
where
    P: DaemonPort + Drop,
    S: DaemonClock + Drop,
    O: DaemonObserver + Drop,
    R: Files + Clock,
    L: Write + Drop,
    requires { failed_calls parts.port.counts ≡ 0 }
{
    let mut said = Vec::new(host.alloc);
    let mut assembly = Assembly::begin(host, parts, startup, &mut said)?;
    assembly.serve(turns);
    Ok(assembly)
}

// The parts of the daemon, over a wire.
fn year_parts<'a, 'd>(
    host: &Host<'a, MemoryHost<'d>>,
    wire: YearWire<'a, 'd>,
    reference: Reference,
) -> Result<YearParts<'a, 'd>, Fail>
    ensures { IfOk result (λ parts. failed_calls parts.port.counts ≡ 0) }
{
    let watch = QueueWatch::new(host.configuration.longest_wait);
    Ok(Parts {
        port: FreshPort::new(UdpPort::new(wire), watch),
        commands: commands_at(host)?,
        reference: ClockSource::Fixed(reference),
        observer: year_observer(host.alloc, host.rt, host.clocks)?,
        log: emptied_file(host.rt, LOG)?,
    })
}

// What is known of the daemon when it begins.
fn known_at_start() -> StartupFacts {
    StartupFacts {
        bound: BoundAt {
            local: SocketAddrV4::new(Ipv4Addr::new(192, 0, 2, 1), 123),
            buffer: 0,
            spins: false,
        },
        digest: [0; 32],
        form: LogForm::Plain,
        manager: None,
    }
}

// The commands file, which is empty.
fn commands_at<'a, 'd>(
    host: &Host<'a, MemoryHost<'d>>,
) -> Result<CommandsFile<'a, HostFile<'a, MemoryHost<'d>>>, Fail> {
    match commands_in(host.rt, host.configuration.commands.as_str(), host.clocks) {
        Ok(commands) => Ok(commands),
        Err(_) => Err(Fail::new("the commands file cannot be opened")),
    }
}

// The commands file at a path of a host.
fn commands_in<'a, R: Files>(
    files: &'a R,
    path: &'a str,
    clocks: &'a HostClocks,
) -> io::Result<CommandsFile<'a, HostFile<'a, R>>> {
    CommandsFile::over(HostFile::open(files, path)?, clocks)
}

// Who is told what the daemon does.
fn year_observer<'a, 'd>(
    alloc: Global,
    host: &'a MemoryHost<'d>,
    clocks: &'a HostClocks,
) -> Result<ReportingObserver<'a, MemoryFile<'d>, LineWriter<MemoryFile<'d>>>, Fail> {
    let answers = LineWriter::new(alloc, emptied_file(host, ANSWERS)?)?;
    let log = Log::new(alloc, emptied_file(host, LOG)?, LogForm::Plain)?;
    let answers = Some(AnswerLines::new(answers));
    let reports = Some(CustomerCounts::new(alloc));
    Ok(ReportingObserver::new(answers, log, clocks, reports))
}
