//! What the daemon works with: its socket, its commands, who answers them, and where the clock's state comes from.
ghost use Rattle.std.specs.Prelude.{◌≡◌, [], IfOk};
ghost use Rattle.ntp_port.specs.Watch.{Watches, longest_of};
ghost use Rattle.labntpd_files.specs.declared.configuration.Listen.{Listen};
ghost use Rattle.labntpd_start.specs.Prepared.{IsSourceOf};

use crate::host_addresses::SeveralAddresses;
use crate::lines::{judged, start_lines};
use crate::prepared::PreparedClock;
use labntpd_files::{Configuration, Listen};
use ntp_admin::{Status, failed_status};
use ntp_host::{
    BoundAt, ClockSource, CommandsFile, FollowedClock, HostClocks, HostFile, SystemClockWire,
    emptied_file, inherited, read_regular_file, receive_buffer, set_receive_buffer,
    set_send_buffer,
};
use ntp_port::QueueWatch;
use std::alloc::Global;
use std::fs::{self, File, Files};
use std::io::{self, ErrorKind, LineWriter, Write};
use std::net::{Ipv4Addr, SocketAddr, SocketAddrV4, UdpSocket};
use std::os::unix::fs::MetadataExt;
use std::{env, process};

/// The socket that was handed down, among what this process has open (proc(5)).
const INHERITED: &str = "/proc/self/fd/3";

/// The kernel's lists of IPv4 sockets that receive datagrams and are none of UDP (proc(5)).
const OTHER_LISTS: [&str; 3] = ["/proc/net/udplite", "/proc/net/raw", "/proc/net/icmp"];

/// How many octets of such a list are read at most: 2,048 lines.
pub(crate) const MOST_LIST_OCTETS: u32 = 262_144;

/// The socket that is bound as the configuration says, or that was handed down.
pub fn open_socket(rt: &HostRuntime, alloc: Global, listen: Listen) -> Result<UdpSocket, Status> {
    let made = match listen {
        Listen::Bound(at) => {
            refuse_handed_down(rt).and_then(|()| UdpSocket::bind(rt, at.socket_address()))
        }
        Listen::Inherited => handed_down(rt, alloc),
    };
    judged(rt, "listen", made)
}

/// Has the socket never block, gives it its buffers, and returns what is known of it.
pub fn set_up(
    rt: &HostRuntime,
    socket: &UdpSocket,
    configuration: &Configuration,
) -> Result<BoundAt, Status> {
    judged(rt, "listen", socket.set_nonblocking(true))?;
    // A socket that was handed down keeps its buffers, which may be larger than this process could have them made.
    if matches!(configuration.listen, Listen::Bound(_)) {
        let set = set_receive_buffer(socket, configuration.receive_buffer);
        judged(rt, "receive_buffer", set)?;
        let set = set_send_buffer(socket, configuration.send_buffer);
        judged(rt, "send_buffer", set)?;
    }
    let buffer = judged(rt, "receive_buffer", receive_buffer(socket))?;
    let SocketAddr::V4(local) = judged(rt, "listen", socket.local_addr())? else {
        let _ = writeln!(start_lines(rt), "listen: an IPv4 socket is wanted");
        return Err(Status::IoFailed);
    };
    // One that the configuration names was judged with it.
    if matches!(configuration.listen, Listen::Inherited)
        && let Some(several) = SeveralAddresses::at(rt, rt.alloc(), local, true)
    {
        let _ = writeln!(start_lines(rt).warning(), "{several}");
    }
    Ok(BoundAt {
        local,
        buffer,
        spins: configuration.spin,
    })
}

/// Judges the socket that was handed down to this process, where one was, and opens none. Prints a fault in one line, and returns the
/// exit status.
pub fn check_socket(rt: &HostRuntime, alloc: Global, listen: Listen) -> Result<(), Status> {
    match listen {
        Listen::Inherited if is_ours(rt) => open_socket(rt, alloc, listen).map(|_| ()),
        Listen::Inherited => Ok(()),
        Listen::Bound(_) => judged(rt, "listen", refuse_handed_down(rt)),
    }
}

// Fails where a socket was handed down to this process: beside one at an address it would never be read.
fn refuse_handed_down(rt: &HostRuntime) -> io::Result<()> {
    if env::var(rt, "LISTEN_FDS").is_ok() && is_ours(rt) {
        return refused("a socket was handed down (LISTEN_FDS): \"inherited\" is wanted");
    }
    Ok(())
}

// The socket that was handed down to this process, and to no other.
fn handed_down(rt: &HostRuntime, alloc: Global) -> io::Result<UdpSocket> {
    if !is_ours(rt) {
        return refused("LISTEN_PID, the number of this process, is wanted: no socket is there");
    }
    if !is_number(rt, "LISTEN_FDS", 1) {
        return refused("LISTEN_FDS = 1, for one socket that was handed down, is wanted");
    }
    let socket = inherited()?;
    if is_other(rt, alloc) {
        return refused("a UDP socket is wanted");
    }
    Ok(socket)
}

// Fails, since another socket is wanted, or none.
fn refused<T>(why: &'static str) -> io::Result<T> {
    Err(io::Error::new(ErrorKind::InvalidInput, why))
}

// Returns whether the kernel lists the socket that was handed down among those that are none of UDP.
fn is_other(rt: &HostRuntime, alloc: Global) -> bool {
    fs::metadata(rt, INHERITED).is_ok_and(|socket| {
        OTHER_LISTS.iter().any(|list| has_inode(rt, alloc, list, socket.ino()) == Some(true))
    })
}

// Returns whether a list of sockets, if it can be read, has this inode: it is the tenth word of a line (proc(5)).
fn has_inode(rt: &HostRuntime, alloc: Global, list: &str, inode: u64) -> Option<bool> {
    let octets = read_regular_file(rt, alloc, list, MOST_LIST_OCTETS).ok()?;
    let inode_of = |line: &str| line.split_ascii_whitespace().nth(9)?.parse().ok();
    Some(
        str::from_utf8(&octets)
            .ok()?
            .lines()
            .any(|line| inode_of(line) == Some(inode)),
    )
}

// Whether what the environment says of sockets is meant for this process.
fn is_ours(rt: &HostRuntime) -> bool {
    is_number(rt, "LISTEN_PID", process::id(rt.process()))
}

// Whether a word of the environment is this number.
fn is_number(rt: &HostRuntime, name: &str, number: u32) -> bool {
    env::var(rt, name).is_ok_and(|word| word.parse() == Ok(number))
}

/// Opens the answers file and makes it empty, where the configuration names one. Each line is written to it in one piece.
pub fn answers_file(
    rt: &HostRuntime,
    alloc: Global,
    configuration: &Configuration,
) -> Result<Option<LineWriter<File>>, Status> {
    let Some(path) = &configuration.answers else {
        return Ok(None);
    };
    let file = judged(rt, path.as_str(), emptied_file(rt, path.as_str()))?;
    Ok(Some(judged(rt, path.as_str(), LineWriter::new(alloc, file))?))
}

/// Opens where the state of the clock comes from. Prints a fault in one line, and returns the exit status.
pub fn clock_source<'a>(
    rt: &'a HostRuntime,
    clocks: &'a HostClocks,
    clock: PreparedClock,
) -> Result<ClockSource<SystemClockWire<'a, &'a HostRuntime>>, Status>
    ensures { IfOk result (IsSourceOf clock) }
{
    match clock {
        PreparedClock::Fixed(reference) => Ok(ClockSource::Fixed(reference)),
        PreparedClock::Followed(source, follower) => {
            let socket = judged(rt, "clock.source", connected(rt, source.socket_address()))?;
            let wire = SystemClockWire {
                socket,
                clock: rt,
                clocks,
            };
            let followed = FollowedClock::new(wire, follower);
            Ok(ClockSource::Followed(followed))
        }
    }
}

// A socket that is connected to an address and does not wait.
fn connected(rt: &HostRuntime, address: SocketAddrV4) -> io::Result<UdpSocket> {
    let socket = UdpSocket::bind(rt, SocketAddrV4::new(Ipv4Addr::UNSPECIFIED, 0))?;
    socket.connect(address)?;
    socket.set_nonblocking(true)?;
    Ok(socket)
}

/// Returns what is known of the queue of a socket that is opened from now on: one that is bound was empty until now; of one that
/// was handed down nothing is known.
pub fn watch_from_now(
    rt: &HostRuntime,
    clocks: &HostClocks,
    configuration: &Configuration,
) -> QueueWatch
    ensures longest { longest_of result ≡ configuration.now.longest_wait }
    ensures handed_down { configuration.now.listen ≡ Listen.Inherited → Watches result [] }
{
    let mut watch = QueueWatch::new(configuration.longest_wait);
    let now = clocks.read(&rt);
    // What stands in the queue of a socket that was handed down may have come long ago.
    if matches!(configuration.listen, Listen::Bound(_)) {
        watch.saw(0, now);
    }
    watch
}

/// Opens the commands file at a path, and reads no line yet. `clocks` have the time of each look. Writes a fault in one line to `faults`,
/// and returns the exit status.
pub fn commands_at<'a, R: Files, F: Write>(
    files: &'a R,
    path: &'a str,
    clocks: &'a HostClocks,
    faults: &mut F,
) -> Result<CommandsFile<'a, HostFile<'a, R>>, Status> {
    HostFile::open(files, path)
        .and_then(|file| CommandsFile::over(file, clocks))
        .map_err(|error| failed_status(path, &error, faults))
}
