//! The clocks of the host, and what is asked of the system to follow its clock daemon.
ghost use Rattle.std.specs.Prelude.{◌≡◌, ◌≤◌, true, IfOk, IfErr, IfSome, option_map, take};
ghost use Rattle.std.specs.Time.{system_time_nanos, FitsClock};
ghost use Rattle.ntp_client.specs.InForce.{is_read};
ghost use Rattle.ntp_host.specs.{Clock.IsMomentOf, Clock.unread, Following.ClockTold, Following.nothing_told, Following.ComesIn};

use ntp_packet::{Moment, Stamp};
use std::cell::Cell;
use std::io;
use std::net::UdpSocket;
use std::os::fd::AsRawFd;
use std::time::{Clock, SystemTime, UNIX_EPOCH};

/// The moment that the clock shows; stamp 0 of era 0 where it cannot be read or is out of range.
pub fn moment_now<C: Clock>(clock: &C) -> Moment {
    moment_of(SystemTime::now(clock))
}

fn moment_of(reading: io::Result<SystemTime>) -> Moment
    requires { IfOk reading (λ time. FitsClock (system_time_nanos time)) }
    ensures shown { IfOk reading (λ time. IsMomentOf result (system_time_nanos time)) }
    ensures unread { IfErr reading (λ _. result ≡ unread) }
{
    let unread = Moment {
        era: 0,
        stamp: Stamp(0),
    };
    let Ok(Ok(since_1970)) = reading.map(|time| time.duration_since(UNIX_EPOCH)) else {
        return unread;
    };
    let seconds = i128::from(since_1970.as_secs());
    Moment::from_unix(seconds, since_1970.subsec_nanos()).unwrap_or(unread)
}

/// What the port and the clock source share.
#[derive(Drop)]
pub struct HostClocks {
    /// The last reading of the monotonic clock, in nanoseconds.
    pub ticks: Cell<u64>,
    /// Its reading when the daemon began to serve; None while that carries out the lines that its commands file has at the start.
    pub began: Cell<Option<u64>>,
    /// A second socket, at which something is expected that ends a wait for datagrams; -1 where nothing is.
    pub expected: Cell<i32>,
}

impl HostClocks {
    /// Nothing was read, nothing is expected, and nobody is served.
    pub fn new() -> HostClocks {
        HostClocks {
            ticks: Cell::new(0),
            began: Cell::new(None),
            expected: Cell::new(-1),
        }
    }

    /// Reads the monotonic clock, in nanoseconds; the last reading where it cannot be read.
    pub fn read<C: Clock>(&self, clock: &C) -> u64 {
        let since_start = clock.monotonic().map_or(0, |it| it.as_nanos());
        let nanos = u64::try_from(since_start).unwrap_or(u64::MAX);
        self.ticks.set(nanos.max(self.ticks.get()));
        self.ticks.get()
    }
}

/// A socket that is connected to the host's clock daemon, and the host's clocks. It may tell what came in, and that the clock can be read.
pub trait ClockWire {
    ghost clock_told: { Self → ClockTold } = { λ _. nothing_told };

    /// Sends a question, without waiting. Returns whether it was sent.
    fn send(&mut self, question: &[u8]) -> bool
        ensures { clock_told self.new ≡ clock_told self.old };

    /// Takes octets that have come into the front of `room`, cut to its size, without waiting for any; with how many there are.
    fn receive(&mut self, room: &mut [u8; 256]) -> Option<usize>
        ensures length { IfSome result (λ length. length ≤ 256) }
        ensures received { ComesIn (clock_told self.old) (clock_told self.new) (option_map (λ length. take length room.new) result) };

    /// Notes whether an answer is waited for, so that it ends a wait for datagrams.
    fn expect(&mut self, is_expected: bool)
        ensures { clock_told self.new ≡ clock_told self.old };

    /// What the host's clock shows; stamp 0 of era 0 where it cannot be read.
    fn clock(&mut self) -> Moment
        ensures told { clock_told self.new ≡ clock_told self.old }
        ensures reads { (clock_told self.old).reads ≡ true → is_read result ≡ true };

    /// What the clock shows that never goes back, in nanoseconds.
    fn ticks(&mut self) -> u64
        ensures { clock_told self.new ≡ clock_told self.old };

    /// What that clock showed when it was read last, here or at the port.
    fn last_ticks(&self) -> u64;
}

/// The host's own. Nothing is known of what comes in. Its socket does not wait.
#[derive(Drop)]
pub struct SystemClockWire<'a, C: Clock + Copy + Drop> {
    /// The socket, which is connected to the daemon.
    pub socket: UdpSocket,
    /// The host's clocks.
    pub clock: C,
    /// What the port shares of them.
    pub clocks: &'a HostClocks,
}

impl<'a, C: Clock + Copy + Drop> ClockWire for SystemClockWire<'a, C> {
    fn send(&mut self, question: &[u8]) -> bool {
        self.socket.send(question).is_ok()
    }

    fn receive(&mut self, room: &mut [u8; 256]) -> Option<usize> {
        self.socket.recv(room).ok()
    }

    fn expect(&mut self, is_expected: bool) {
        let socket = self.socket.as_raw_fd();
        let expected = if is_expected { socket } else { -1 };
        self.clocks.expected.set(expected);
    }

    fn clock(&mut self) -> Moment {
        moment_now(&self.clock)
    }

    fn ticks(&mut self) -> u64 {
        self.clocks.read(&self.clock)
    }

    fn last_ticks(&self) -> u64 {
        self.clocks.ticks.get()
    }
}
