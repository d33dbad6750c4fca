//! Customers are served, day and night.
ghost use Rattle.std.specs.Prelude.{◌≡◌, ◌+◌, IfOk};

use labntpd_assembly::{Assembly, Host, Parts, ReportingObserver, ServeFault, StartupFacts};
use labntpd_files::Configuration;
use labntpd_start::{
    Prepared, PreparedClock, answers_file, clock_source, commands_at, log_form, open_socket,
    service_manager, set_up, start_lines, watch_from_now,
};
use ntp_admin::{Status, memory_status, write_status};
use ntp_host::{
    BoundAt, ClockSource, CommandsFile, HostClocks, HostFile, KernelQueue, Log, SOCKETS_ROOM,
    SystemClockWire, SystemWire, UdpPort, has_standard_streams,
};
use ntp_port::FreshPort;
use ntp_reports::{AnswerLines, CustomerCounts};
use std::alloc::Global;
use std::fs::File;
use std::io::{LineWriter, Stderr};

// Where the datagrams of the daemon come from.
type UdpQueue<'a> = FreshPort<UdpPort<SystemWire<&'a HostRuntime, KernelQueue<'a>>>>;

// Who hears what it does.
type HostObserver<'a> = ReportingObserver<'a, Stderr, LineWriter<File>>;

/// Serves by what was prepared, for ever. Returns the exit status where that cannot start; a fault is printed in one line on
/// standard error.
pub fn serve(rt: &HostRuntime, alloc: Global, prepared: Prepared) -> Result<(), Status> {
    if !has_standard_streams() {
        return Err(write_status(&mut start_lines(rt)));
    }
    let Prepared {
        configuration,
        clock,
        digest,
    } = prepared;
    let clocks = HostClocks::new();
    // It is judged before anything is written.
    let path = configuration.commands.as_str();
    let commands = commands_at(rt, path, &clocks, &mut start_lines(rt))?;
    let host = Host {
        rt,
        alloc,
        clocks: &clocks,
        configuration: &configuration,
    };
    let opened = Opened::open(rt, alloc, &clocks, &configuration, clock)?;
    serve_opened(host, digest, commands, opened)
}

// What was opened for a server on its host.
#[derive(Drop)]
struct Opened<'a> {
    port: UdpQueue<'a>,
    bound: BoundAt,
    reference: ClockSource<SystemClockWire<'a, &'a HostRuntime>>,
    observer: HostObserver<'a>,
}

impl<'a> Opened<'a> {
    // Opens the socket first: where another server has its port, nothing of that one's is touched.
    fn open(
        rt: &'a HostRuntime,
        alloc: Global,
        clocks: &'a HostClocks,
        configuration: &Configuration,
        clock: PreparedClock,
    ) -> Result<Opened<'a>, Status>
        ensures { IfOk result (λ opened. opened.port.counts.failed_receives + opened.port.counts.failed_sends ≡ 0) }
    {
        let watch = watch_from_now(rt, clocks, configuration);
        let socket = open_socket(rt, alloc, configuration.listen)?;
        let bound = set_up(rt, &socket, configuration)?;
        let reference = clock_source(rt, clocks, clock)?;
        let observer = open_observer(rt, alloc, clocks, configuration)?;
        let Ok(room) = Vec::with_capacity(alloc, SOCKETS_ROOM) else {
            return Err(memory_status(&mut start_lines(rt)));
        };
        let queue = KernelQueue {
            clocks,
            bound,
            room,
        };
        let wire = SystemWire {
            socket,
            clock: rt,
            queue,
        };
        Ok(Opened {
            port: FreshPort::new(UdpPort::new(wire), watch),
            bound,
            reference,
            observer,
        })
    }
}

// Serves for ever with what was opened. Gives the exit status where that cannot begin.
fn serve_opened<'a>(
    host: Host<'a, HostRuntime>,
    digest: [u8; 32],
    commands: CommandsFile<'a, HostFile<'a, HostRuntime>>,
    opened: Opened<'a>,
) -> Result<(), Status>
    requires { opened.port.counts.failed_receives + opened.port.counts.failed_sends ≡ 0 }
{
    let rt = host.rt;
    let startup = StartupFacts {
        bound: opened.bound,
        digest,
        form: log_form(rt),
        manager: service_manager(rt),
    };
    let parts = Parts {
        port: opened.port,
        commands,
        reference: opened.reference,
        observer: opened.observer,
        log: rt.stderr(),
    };
    let mut assembly = match Assembly::begin(host, parts, startup, &mut rt.stdout()) {
        Ok(assembly) => assembly,
        Err(fault) => return Err(serve_fault_status(rt, fault)),
    };
    assembly.serve(u64::MAX);
    Ok(())
}

// Tells why a daemon did not begin to serve.
fn serve_fault_status(rt: &HostRuntime, fault: ServeFault) -> Status {
    match fault {
        ServeFault::NoMemory => memory_status(&mut start_lines(rt)),
        ServeFault::NotSaid => write_status(&mut start_lines(rt)),
    }
}

// Who hears what the daemon does: it counts, answers lines of commands, logs them, and reports on customers.
fn open_observer<'a>(
    rt: &'a HostRuntime,
    alloc: Global,
    clocks: &'a HostClocks,
    configuration: &Configuration,
) -> Result<HostObserver<'a>, Status> {
    let answers = answers_file(rt, alloc, configuration)?.map(|file| AnswerLines::new(file));
    let Ok(log) = Log::new(alloc, rt.stderr(), log_form(rt)) else {
        return Err(memory_status(&mut start_lines(rt)));
    };
    let reports = configuration
        .customers
        .as_ref()
        .map(|_| CustomerCounts::new(alloc));
    Ok(ReportingObserver::new(answers, log, clocks, reports))
}
