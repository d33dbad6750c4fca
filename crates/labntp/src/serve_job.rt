//! Customers are served over a socket.
ghost use Rattle.std.specs.Prelude.{◌≡◌, ◌-◌, ◌<◌, ◌^◌};
ghost use Rattle.ntp_port.specs.{declared.serving.Served.Served, Sending.counted};

use crate::whole_commands::WholeCommands;
use labntp_jobs::Serving;
use ntp_admin::{
    FaultLines, LoadFault, Loaded, MOST_FILE_OCTETS, RegisterFault, Status, load_register,
    load_status, socket_status, write_status,
};
use ntp_host::{SystemWire, UdpPort, read_regular_file};
use ntp_port::FixedReference;
use ntp_server::{NoReports, Server};
use ntp_service::{Command, LineOutcome, Observer, TurnOutcome};
use std::alloc::Global;
use std::fs::Files;
use std::io::{self, ErrorKind, Write};
use std::net::{Ipv4Addr, Net, SocketAddrV4, UdpSocket};
use std::time::{Clock, Duration};

/// Longest wait for a datagram, in thousandths of a second: a command that is written while nobody asks is carried out
/// that soon.
const LONGEST_WAIT: u64 = 100;

/// Serves the customers of a register file over UDP port `port` of 127.0.0.1, for `turns` turns. In each turn the
/// commands file is looked at, once its datagram has come and before it is answered: what was appended to it by then is
/// in force.
///
/// Writes to `out` that it serves, and at the end how many datagrams came and how many replies were sent. Gives the exit
/// status; a fault is told in one line to `faults`, where a failed write is passed over.
pub fn serve_status<R: Net + Files + Clock, W: Write, F: Write>(
    rt: &R,
    alloc: Global,
    serving: &Serving<'_>,
    out: &mut W,
    faults: &mut F,
) -> Status {
    let Loaded { reference, service } = match load(rt, alloc, serving.register) {
        Ok(loaded) => loaded,
        Err(fault) => return load_status(fault, faults),
    };
    let number = serving.port.get();
    let Ok(socket) = bound(rt, number) else {
        return socket_status(faults);
    };
    if writeln!(out, "serving 127.0.0.1:{number}").is_err() {
        return write_status(faults);
    }
    let mut server = Server {
        port: UdpPort::new(SystemWire {
            socket,
            clock: rt,
            queue: (),
        }),
        commands: WholeCommands::new(rt, serving.commands),
        applied: 0,
        reference: FixedReference(reference),
        observer: Heard {
            faults: FaultLines::new(&mut *faults),
            arrivals: 0,
            sent: 0,
        },
        service,
    };
    server.serve(u64::from(serving.turns), &mut NoReports);
    let (arrivals, sent) = (server.observer.arrivals, server.observer.sent);
    drop(server);
    if writeln!(out, "arrivals {arrivals} sent {sent}").is_err() {
        return write_status(faults);
    }
    Status::Done
}

// Writes what is wrong with lines of commands, and counts the datagrams that came and the replies that were sent.
#[derive(Drop)]
struct Heard<F> {
    faults: FaultLines<F>,
    arrivals: u64,
    sent: u64,
}

impl<F: Write> Observer for Heard<F> {
    fn line(&mut self, number: u64, command: Option<&Command>, outcome: LineOutcome) {
        self.faults.line(number, command, outcome);
    }

    fn turn(&mut self, outcome: &TurnOutcome)
        ensures { (before : Served) → before.arrivals ≡ self.old.arrivals → before.sent ≡ self.old.sent
            → self.old.arrivals < 2 ^ 64 - 1 → self.old.sent < 2 ^ 64 - 1
            → (self.new.arrivals ≡ (counted outcome.now before).arrivals) × (self.new.sent ≡ (counted outcome.now before).sent) }
    {
        if let TurnOutcome::Answered { sending, .. } = outcome {
            self.arrivals = self.arrivals.saturating_add(1);
            self.sent = self.sent.saturating_add(u64::from(sending.was_sent()));
        }
    }
}

// The reference state and the customers of the register file at a path.
fn load<R: Files>(files: &R, alloc: Global, path: &str) -> Result<Loaded, LoadFault> {
    match read_regular_file(files, alloc, path, MOST_FILE_OCTETS as u32) {
        Ok(octets) => load_register(alloc, &octets),
        Err(error) if error.kind() == ErrorKind::OutOfMemory => {
            Err(LoadFault::Register(RegisterFault::NoMemory))
        }
        Err(_) => Err(LoadFault::Read),
    }
}

// A socket at a UDP port of 127.0.0.1, with its time limit.
fn bound<R: Net>(net: &R, port: u16) -> io::Result<UdpSocket> {
    let socket = UdpSocket::bind(net, SocketAddrV4::new(Ipv4Addr::LOCALHOST, port))?;
    socket.set_read_timeout(Some(Duration::from_millis(LONGEST_WAIT)))?;
    Ok(socket)
}
