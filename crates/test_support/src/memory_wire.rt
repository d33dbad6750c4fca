//! A wire in memory.
ghost use Rattle.std.specs.Prelude.{◌≡◌, ◌+◌, ◌≤◌, ◌<◌, true, false, not, ◌&&◌, vec_len, vec_capacity, if◌then◌else◌, IfOk, IsTrue, Some, [], map};

use ntp_host::Wire;
use ntp_mac::Reply;
use ntp_packet::{Moment, Stamp};
use ntp_port::{DatagramRoom, MOST_RECEIVED_OCTETS, Sent};
use ntp_service::{Address, NoMemory, Octets};
use std::alloc::{Allocator, Global};
use std::io::{self, ErrorKind};
use std::net::{Ipv4Addr, SocketAddr, SocketAddrV4};

/// A datagram that is to be received.
#[derive(Debug, Drop)]
pub struct Incoming<A: Allocator = Global> {
    /// The address from which it comes.
    pub address: Address,
    /// The UDP port from which it comes.
    pub port: u16,
    /// When it comes.
    pub receipt: Moment,
    /// Its octets; at most 1,025 are received.
    pub octets: Octets<A>,
}

/// One turn: a receive, and the calls behind it.
#[derive(Debug, Drop)]
pub struct Turn<A: Allocator = Global> {
    /// The datagram; without one the receive fails.
    pub arrival: Option<Incoming<A>>,
    /// What the clock shows at first.
    pub transmit: Moment,
    /// What it shows afterwards.
    pub departure: Moment,
    /// Whether a reply can be sent.
    pub sends: bool,
}

// What the clock shows outside of the turns.
const UNREAD: Moment = Moment {
    era: 0,
    stamp: Stamp(0),
};

/// A wire that makes the turns of a list, and keeps what was sent.
///
/// In a turn with a datagram the clock shows its receipt, then `transmit`, then `departure`; in one without, it begins with
/// `transmit`. One reply of at most 72 octets is taken where the turn sends. Once the list has run out, the clock shows stamp 0 of era 0,
/// and receives and sends fail.
#[derive(Drop)]
pub struct MemoryWire<A: Allocator = Global> {
    turns: Vec<Turn<A>, A>,
    // How many turns have begun, and whether the last of them is the present one.
    begun: usize,
    is_present: bool,
    // What the clock shows in it when it is read next, when it is read then, and from then on.
    shows: Moment,
    shows_then: Moment,
    shows_at_last: Moment,
    has_tried_send: bool,
    sent: Vec<Sent, A>,
    ghost within: { begun ≤ vec_len turns },
    ghost present: { IsTrue is_present → 0 < begun },
    ghost owed: { vec_len sent + (if is_present && not has_tried_send then 1 else 0) ≤ begun },
    ghost room: { vec_len turns ≤ vec_capacity sent },
}

impl<A: Allocator + Copy> MemoryWire<A> {
    ghost use Rattle.ntp_host.specs.Wire.{no_wire_turn};
    ghost use Rattle.test_support.specs.Wires.{wire_turn, told_by_wire};

    /// A wire that will make these turns. The room for all that can be sent is taken from `alloc` here: `NoMemory` only where it was
    /// refused.
    pub fn new(alloc: A, turns: Vec<Turn<A>, A>) -> Result<MemoryWire<A>, NoMemory>
        ensures { IfOk result (λ wire. told_by_wire wire ≡ record {
          coming = map wire_turn turns.items;
          present = no_wire_turn;
          clock = no_wire_turn.clock;
          has_tried_send = false;
          sent = [];
        }) }
    {
        let sent = Vec::with_capacity(alloc, turns.len())?;
        Ok(MemoryWire {
            turns,
            begun: 0,
            is_present: false,
            shows: UNREAD,
            shows_then: UNREAD,
            shows_at_last: UNREAD,
            has_tried_send: false,
            sent,
        })
    }
}

impl<A: Allocator> MemoryWire<A> {
    ghost use Rattle.test_support.specs.Wires.{told_by_wire, wire_present};

    /// What was sent, in order.
    pub fn sent(&self) -> &[Sent]
        ensures { result.now ≡ (told_by_wire self.now).sent }
    {
        &self.sent
    }

    // Whether the present turn takes a reply.
    fn can_send(&self) -> bool
        ensures { result ≡ ((wire_present self.now).sends && not self.now.has_tried_send) }
    {
        self.is_present && self.turns[self.begun - 1].sends && !self.has_tried_send
    }
}

impl<A: Allocator> Wire for MemoryWire<A> {
    ghost use Rattle.test_support.specs.Wires.{told_by_wire};

    ghost turns = { λ wire. Some (told_by_wire wire) };

    fn receive(&mut self, room: &mut DatagramRoom) -> io::Result<(usize, SocketAddr)> {
        let at = self.begun;
        self.is_present = false;
        self.has_tried_send = false;
        if at == self.turns.len() {
            return Err(io::Error::from(ErrorKind::Other));
        }
        self.begun = at + 1;
        self.is_present = true;
        let turn = &self.turns[at];
        self.shows_at_last = turn.departure;
        let Some(incoming) = &turn.arrival else {
            self.shows = turn.transmit;
            self.shows_then = turn.departure;
            return Err(io::Error::from(ErrorKind::Other));
        };
        self.shows = incoming.receipt;
        self.shows_then = turn.transmit;
        let octets = incoming.octets.as_slice();
        let length = octets.len().min(MOST_RECEIVED_OCTETS);
        room[..length].copy_from_slice(&octets[..length]);
        let source = SocketAddrV4::new(Ipv4Addr::from(incoming.address.0), incoming.port);
        Ok((length, SocketAddr::V4(source)))
    }

    fn send(&mut self, target: SocketAddrV4, reply: &[u8]) -> io::Result<usize> {
        let taken = if self.can_send() {
            Reply::from_octets(reply)
        } else {
            None
        };
        self.has_tried_send = true;
        let Some(reply) = taken else {
            return Err(io::Error::from(ErrorKind::Other));
        };
        let length = reply.octets().len();
        self.sent.push_reserved(Sent {
            address: Address(target.ip().octets()),
            port: target.port(),
            reply,
        });
        Ok(length)
    }

    fn now(&mut self) -> Moment {
        if !self.is_present {
            return UNREAD;
        }
        let shown = self.shows;
        self.shows = self.shows_then;
        self.shows_then = self.shows_at_last;
        shown
    }
}
