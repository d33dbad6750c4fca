//! A link over a UDP socket.

use ntp_host::moment_now;
use ntp_packet::Moment;
use ntp_query::{Asker, Link, Outcome, Received, Room, Unreached, ask, empty_room};
use std::io::{self, ErrorKind};
use std::net::{SocketAddr, ToSocketAddrs, UdpSocket};
use std::time::{Duration, Instant};

/// The error that Linux makes of ICMP's message that nobody listens at a port (icmp(7)).
const ECONNREFUSED: i32 = 111;

/// Those that it makes of ICMP's other messages: ENETUNREACH, EHOSTUNREACH, EHOSTDOWN, ENONET, ENOPROTOOPT, EMSGSIZE and EPROTO.
const OTHER_ICMP_ERRORS: [i32; 7] = [101, 113, 112, 64, 92, 90, 71];

/// A socket that is joined to a server, so that the system passes on what comes from its address and port alone.
#[derive(Drop)]
pub struct UdpLink<'a> {
    socket: UdpSocket,
    rt: &'a HostRuntime,
    timeout: Duration,
    // Until when it receives.
    end: Option<Instant>,
    // How many datagrams it still gives at most.
    left: u64,
    // Why the last receive failed, if it did.
    fault: Option<io::Error>,
    // What the network said last of the present request.
    said: Option<Unreached>,
}

impl<'a> UdpLink<'a> {
    /// A link from an IPv4 address of this host, `0.0.0.0` for any, with a time limit in nanoseconds for each request.
    pub fn bind(rt: &'a HostRuntime, source: &str, timeout: u64) -> io::Result<UdpLink<'a>> {
        Ok(UdpLink {
            socket: UdpSocket::bind(rt, (source, 0))?,
            rt,
            timeout: Duration::from_nanos(timeout),
            end: None,
            left: 0,
            fault: None,
            said: None,
        })
    }

    /// Joins it to the first IPv4 address of a host, at a UDP port. The system looks names up.
    pub fn connect(&self, host: &str, port: u16) -> io::Result<()> {
        let missing = "the name has no IPv4 address";
        let mut addresses = (host, port).to_socket_addrs(self.rt)?;
        match addresses.find(SocketAddr::is_ipv4) {
            Some(address) => self.socket.connect(address),
            None => Err(io::Error::new(ErrorKind::AddrNotAvailable, missing)),
        }
    }

    /// Waits for a time, in nanoseconds. What comes meanwhile is dropped. It fails if a receive fails.
    pub fn pause(&mut self, nanos: u64) -> io::Result<()> {
        self.begin(Duration::from_nanos(nanos));
        let mut room = empty_room();
        for _ in 0..u64::MAX {
            if self.receive(&mut room).is_none() {
                break;
            }
        }
        self.fault.take().map_or(Ok(()), Err)
    }

    /// Sends one request, and waits for what comes of it: in the place of silence, what the network said. It fails if the
    /// request could not be sent, or a receive failed.
    pub fn query(&mut self, asker: &mut Asker) -> io::Result<Outcome> {
        let outcome = ask(asker, self)?.or_unreachable(self.said);
        self.fault.take().map_or(Ok(outcome), Err)
    }

    // Receives for `time` from now on.
    fn begin(&mut self, time: Duration) {
        self.left = u64::MAX;
        let now = Instant::now(self.rt).ok();
        self.end = now.and_then(|now| now.checked_add(time));
    }

    // How long it still receives; nothing where that is over.
    fn time_left(&self) -> Option<Duration> {
        let now = Instant::now(self.rt).ok()?;
        let left = self.end?.checked_duration_since(now)?;
        (!left.is_zero()).then_some(left)
    }
}

impl<'a> Link for UdpLink<'a> {
    ghost most = { λ link. link.left };

    fn now(&mut self) -> Moment {
        moment_now(&self.rt)
    }

    /// Sends it. An error that the network made of an earlier one, as that nobody listens, is no fault of this one.
    fn send(&mut self, request: &[u8]) -> io::Result<()> {
        let sent = match self.socket.send(request) {
            Err(error) if said_in(&error).is_some() => self.socket.send(request),
            sent => sent,
        };
        self.said = None;
        self.begin(self.timeout);
        sent.map(|_| ())
    }

    /// Receives it. What the network says of the server is not authentic, and ends no wait; nor does a signal.
    fn receive(&mut self, room: &mut Room) -> Option<Received> {
        let left = self.left.checked_sub(1)?;
        for _ in 0..u64::MAX {
            let error = match self.socket.set_read_timeout(Some(self.time_left()?)) {
                Ok(()) => match self.socket.recv(room) {
                    Ok(length) => {
                        self.left = left;
                        let at = moment_now(&self.rt);
                        return Some(Received { length, at });
                    }
                    Err(error) => error,
                },
                Err(error) => error,
            };
            match (said_in(&error), error.kind()) {
                (Some(said), _) => self.said = Some(said),
                (_, ErrorKind::WouldBlock | ErrorKind::TimedOut | ErrorKind::Interrupted) => {}
                _ => {
                    self.fault = Some(error);
                    return None;
                }
            }
        }
        None
    }
}

// What the network says of an earlier datagram, which anybody can forge, where an error is that (icmp(7)).
fn said_in(error: &io::Error) -> Option<Unreached> {
    match error.raw_os_error()? {
        ECONNREFUSED => Some(Unreached::Port),
        number if OTHER_ICMP_ERRORS.contains(&number) => Some(Unreached::Network),
        _ => None,
    }
}
