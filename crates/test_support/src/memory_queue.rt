//! A queue in memory.
ghost use Rattle.std.specs.Prelude.{◌≡◌, ◌≤◌, ◌<◌, ℕ, [], ◌∷◌, ◌++◌, false, Some, IfOk, IsTrue, reverse, slice_index, vec_len, is_ok, ◌↔◌, if◌then◌else◌};
ghost use Rattle.ntp_port.specs.{Queue.last_reading, Queue.TellsEvents, Port.most_received_octets};
ghost use Rattle.ntp_port.specs.declared.queue_event.QueueEvent.{QueueEvent};
ghost use Rattle.ntp_host.specs.Wire.{seen_in_receive};

use crate::memory_wire::MemoryWire;
use ntp_host::{QueuedWire, Wire};
use ntp_packet::Moment;
use ntp_port::{DatagramRoom, MOST_RECEIVED_OCTETS, QueueEvent, Sent};
use ntp_service::NoMemory;
use std::alloc::{Allocator, Global};
use std::io::{self, ErrorKind};
use std::net::{SocketAddr, SocketAddrV4};

// What was seen, oldest first, as far as there was room for it.
#[derive(Drop)]
struct Log<A: Allocator> {
    events: Vec<QueueEvent, A>,
    // Whether there was no room for one.
    has_missed: bool,
}

impl<A: Allocator> Log<A> {
    // Keeps an event, where there is room.
    fn see(&mut self, event: QueueEvent)
        ensures missed { self.new.has_missed ≡ false → self.old.has_missed ≡ false }
        ensures seen { self.new.has_missed ≡ false → self.new.events.items ≡ self.old.events.items ++ event ∷ [] }
    {
        if self.has_missed || self.events.len() == self.events.capacity() {
            self.has_missed = true;
            return;
        }
        self.events.push_reserved(event);
    }
}

/// A wire in memory with a queue: the datagrams of its turns come each at its moment, and the clock that never goes back shows the
/// readings of a list. It says what it has seen of its queue, as long as it had room for all.
///
/// The moments stand in the order in which the datagrams come. A wait ends just before the next reading; a datagram that has come by
/// then is received. A look sees those that have come by the last reading. Once all readings were made no receive ends idle: what is left
/// is received, and then nothing.
#[derive(Drop)]
pub struct MemoryQueue<A: Allocator = Global> {
    wire: MemoryWire<A>,
    // When the datagram of each turn comes, in nanoseconds of the queue's clock.
    due: Vec<u64, A>,
    taken: usize,
    readings: Vec<u64, A>,
    read: usize,
    shown: u64,
    log: Log<A>,
    ghost within: { taken ≤ vec_len due },
    ghost last: { log.has_missed ≡ false → last_reading (reverse log.events.items) ≡ shown },
}

impl<A: Allocator> MemoryQueue<A> {
    ghost use Rattle.test_support.specs.Wires.{told_by_wire, history_in};

    /// A wire whose turns' datagrams come at the moments `due`, and whose clock shows `readings`, all in nanoseconds. The room for `room`
    /// events is taken from `alloc` here: `NoMemory` only where it was refused.
    pub fn new(
        alloc: A,
        wire: MemoryWire<A>,
        due: Vec<u64, A>,
        readings: Vec<u64, A>,
        room: usize,
    ) -> Result<MemoryQueue<A>, NoMemory>
        ensures wire { IfOk result (λ queue. told_by_wire queue.wire ≡ told_by_wire wire) }
        ensures history { IfOk result (λ queue. history_in queue.log ≡ Some []) }
    {
        let events = Vec::with_capacity(alloc, room)?;
        Ok(MemoryQueue {
            wire,
            due,
            taken: 0,
            readings,
            read: 0,
            shown: 0,
            log: Log {
                events,
                has_missed: false,
            },
        })
    }

    /// What was sent, in order.
    pub fn sent(&self) -> &[Sent]
        ensures { result.now ≡ (told_by_wire self.now.wire).sent }
    {
        self.wire.sent()
    }

    // Whether the next datagram has come by a moment.
    fn has_come_by(&self, moment: u64) -> bool
        ensures { IsTrue result ↔ ((self.now.taken < vec_len self.now.due) × (slice_index self.now.due.items self.now.taken ≤ moment)) }
    {
        self.taken < self.due.len() && self.due[self.taken] <= moment
    }

    // Whether a wait ends with no datagram.
    fn is_idle(&self) -> bool {
        match self.readings.get(self.read) {
            Some(next) => !self.has_come_by(self.shown.max(*next)),
            None => false,
        }
    }

    // Receives the datagram of the next turn.
    fn take(&mut self, room: &mut DatagramRoom) -> io::Result<(usize, SocketAddr)>
        ensures length { IfOk result (λ taken. taken.0 ≤ most_received_octets) }
        ensures history { TellsEvents (history_in self.old.log) (history_in self.new.log) (seen_in_receive result) }
        ensures seen { (shown : ℕ) → seen_in_receive result shown ≡ (if is_ok result then QueueEvent.Taken shown ∷ [] else []) }
    {
        let received = self.wire.receive(room);
        if received.is_ok() {
            self.taken = self.due.len().min(self.taken.saturating_add(1));
            self.log.see(QueueEvent::Taken(self.shown));
        }
        received
    }
}

impl<A: Allocator> Wire for MemoryQueue<A> {
    ghost use Rattle.test_support.specs.Wires.{history_in};

    ghost seen = { λ queue. history_in queue.log };

    fn receive(&mut self, room: &mut DatagramRoom) -> io::Result<(usize, SocketAddr)> {
        if self.is_idle() {
            let at = self.shown;
            self.log.see(QueueEvent::Held { count: 0, at });
            return Err(io::Error::from(ErrorKind::WouldBlock));
        }
        self.take(room)
    }

    fn send(&mut self, target: SocketAddrV4, reply: &[u8]) -> io::Result<usize> {
        self.wire.send(target, reply)
    }

    fn now(&mut self) -> Moment {
        self.wire.now()
    }
}

impl<A: Allocator> QueuedWire for MemoryQueue<A> {
    fn ticks(&mut self) -> u64 {
        if let Some(next) = self.readings.get(self.read) {
            self.shown = self.shown.max(*next);
            self.read += 1;
        }
        self.log.see(QueueEvent::Read(self.shown));
        self.shown
    }

    fn most_held(&mut self) -> u64 {
        let mut count = 0u64;
        for at in &self.due[self.taken..] {
            if *at <= self.shown {
                count = count.saturating_add(1);
            }
        }
        let at = self.shown;
        self.log.see(QueueEvent::Held { count, at });
        count
    }

    fn is_empty(&mut self) -> bool {
        let at = self.shown;
        if self.has_come_by(at) {
            self.log.see(QueueEvent::Looked(at));
            return false;
        }
        self.log.see(QueueEvent::Held { count: 0, at });
        true
    }

    fn wait(&mut self) -> bool {
        false
    }

    fn drop_next(&mut self) -> bool {
        self.has_come_by(self.shown) && self.take(&mut [0; MOST_RECEIVED_OCTETS]).is_ok()
    }
}
