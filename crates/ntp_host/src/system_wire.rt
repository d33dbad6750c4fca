//! What a port asks of the system: a UDP socket, and the clock that is read beside it.
ghost use Rattle.std.specs.Prelude.{◌≡◌, ◌≤◌, Option, None, List, [], ◌∷◌, IfOk, if◌then◌else◌};
ghost use Rattle.ntp_port.specs.{Port.most_received_octets, declared.queue_event.QueueEvent.QueueEvent, Queue.ReadsClock, Queue.TellsEvents};
ghost use Rattle.ntp_host.specs.Wire.{WireTold, WireReceives, seen_in_receive, WireSends, WireShows, WireWaits, WireDrops};

use crate::kernel_queue::{KernelQueue, most_held};
use crate::moment_now;
use crate::socket::{awaited, ready};
use libc::net::{POLLIN, POLLRDHUP, poll};
use ntp_packet::Moment;
use ntp_port::DatagramRoom;
use std::fs::Files;
use std::io;
use std::net::{SocketAddr, SocketAddrV4, UdpSocket};
use std::os::fd::AsRawFd;
use std::time::{Clock, Instant};

/// How many thousandths of a second a wait for a datagram lasts at most: so soon is a command carried out while nobody asks.
const LONGEST_WAIT: i32 = 20;

/// A UDP socket with a clock. It may tell its turns, one for each receive that is not idle, and what its calls saw of its queue.
pub trait Wire {
    // What its calls will answer from here on, and what was sent, where the wire tells it.
    ghost turns: { Self → Option WireTold } = { λ _. None };

    // What its calls have seen of the queue and of that clock, newest first, where it tells that.
    ghost seen: { Self → Option (List QueueEvent) } = { λ _. None };

    /// Receives a datagram into the front of `room`, cut to 1,025 octets; with its length, and where it came from (recvfrom(2)).
    fn receive(&mut self, room: &mut DatagramRoom) -> io::Result<(usize, SocketAddr)>
        ensures length { IfOk result (λ taken. taken.0 ≤ most_received_octets) }
        ensures turns { WireReceives (turns self.old) (turns self.new) result room.new }
        ensures history { TellsEvents (seen self.old) (seen self.new) (seen_in_receive result) };

    /// Sends a reply; with how many octets of it were sent (sendto(2)).
    fn send(&mut self, target: SocketAddrV4, reply: &[u8]) -> io::Result<usize>
        ensures turns { WireSends (turns self.old) (turns self.new) target reply.now result }
        ensures history { seen self.new ≡ seen self.old };

    /// The moment that the clock shows; stamp 0 of era 0 where it cannot be read.
    fn now(&mut self) -> Moment
        ensures turns { WireShows (turns self.old) (turns self.new) result }
        ensures history { seen self.new ≡ seen self.old };
}

/// A wire whose datagrams wait in a queue, first in, first out, that can be looked at; with a clock that never goes back.
pub trait QueuedWire: Wire {
    /// What the clock shows that never goes back, in nanoseconds.
    fn ticks(&mut self) -> u64
        ensures turns { Self.turns self.new ≡ Self.turns self.old }
        ensures history { ReadsClock (Self.seen self.old) (Self.seen self.new) result };

    /// Looks how many datagrams are in the queue at most.
    fn most_held(&mut self) -> u64
        ensures turns { Self.turns self.new ≡ Self.turns self.old }
        ensures history { TellsEvents (Self.seen self.old) (Self.seen self.new) (λ shown. QueueEvent.Held result shown ∷ []) };

    /// Looks, without waiting, whether the queue is empty; `false` also where it cannot be told.
    fn is_empty(&mut self) -> bool
        ensures turns { Self.turns self.new ≡ Self.turns self.old }
        ensures history { TellsEvents (Self.seen self.old) (Self.seen self.new)
            (λ shown. (if result then QueueEvent.Held 0 shown else QueueEvent.Looked shown) ∷ []) };

    /// Waits for a while until a datagram may have come. Returns whether the socket was shut down.
    fn wait(&mut self) -> bool
        ensures turns { WireWaits result (Self.turns self.old) (Self.turns self.new) }
        ensures history { Self.seen self.new ≡ Self.seen self.old };

    /// Takes a datagram out of the queue without waiting for one, and drops it. Whether it did.
    fn drop_next(&mut self) -> bool
        ensures turns { WireDrops result (Self.turns self.old) (Self.turns self.new) }
        ensures history { TellsEvents (Self.seen self.old) (Self.seen self.new)
            (λ shown. if result then QueueEvent.Taken shown ∷ [] else []) };
}

/// One bound UDP socket of the host, with a clock. Nothing is known of what its calls answer. They take no memory.
#[derive(Drop)]
pub struct SystemWire<C: Clock + Drop, Q = ()> {
    /// The socket, whose time limit is the longest that a receive takes; with none it takes as long as nothing comes.
    pub socket: UdpSocket,
    /// The clock that is read beside it.
    pub clock: C,
    /// What is kept to ask for the socket's queue, if that is to be asked.
    pub queue: Q,
}

impl<C: Clock + Drop, Q: Drop> Wire for SystemWire<C, Q> {
    fn receive(&mut self, room: &mut DatagramRoom) -> io::Result<(usize, SocketAddr)> {
        self.socket.recv_from(room)
    }

    fn send(&mut self, target: SocketAddrV4, reply: &[u8]) -> io::Result<usize> {
        self.socket.send_to(reply, target)
    }

    fn now(&mut self) -> Moment {
        moment_now(&self.clock)
    }
}

impl<'a, C: Clock + Files + Drop> QueuedWire for SystemWire<C, KernelQueue<'a>> {
    fn ticks(&mut self) -> u64 {
        self.queue.clocks.read(&self.clock)
    }

    fn most_held(&mut self) -> u64 {
        most_held(self.queue.used_octets(&self.clock), self.queue.bound.buffer)
    }

    fn is_empty(&mut self) -> bool {
        ready(self.socket.as_raw_fd(), POLLIN) == 0
    }

    /// A wait ends too when that has come which is expected at another socket. Where the port spins it does not sleep.
    fn wait(&mut self) -> bool {
        let KernelQueue { clocks, bound, .. } = &self.queue;
        let mut waits = [
            awaited(self.socket.as_raw_fd(), POLLIN | POLLRDHUP),
            awaited(clocks.expected.get(), POLLIN),
        ];
        let longest = if bound.spins { 0 } else { LONGEST_WAIT };
        let begun = Instant::now(&self.clock);
        for _ in 0..u64::MAX {
            if poll(&mut waits, longest) != 0 || !bound.spins {
                break;
            }
            match begun.and_then(|begun| begun.elapsed(&self.clock)) {
                Ok(passed) if passed.as_millis() < LONGEST_WAIT as u128 => {}
                _ => break,
            }
        }
        waits[0].revents & POLLRDHUP != 0
    }

    fn drop_next(&mut self) -> bool {
        self.socket.recv(&mut [0]).is_ok()
    }
}
