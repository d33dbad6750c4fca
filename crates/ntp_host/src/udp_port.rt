//! A port over a UDP socket.
ghost use Rattle.std.specs.Prelude.{◌≡◌, ◌+◌, ◌-◌, ◌≤◌, ◌<◌, ◌^◌, None, Err, Some, IfOk, IfErr, IfSome, IfNone, IsSomeAnd, option_map, false, true, if◌then◌else◌};
ghost use Rattle.std.specs.IoError.{error_kind};
ghost use Rattle.ntp_port.specs.Port.{most_received_octets, failed_calls, counted_send, CountsWait, ReceiveTells};
ghost use Rattle.ntp_port.specs.Queue.{TellsEvents, seen_in_wait};
ghost use Rattle.ntp_host.specs.{Wire.middle, Wire.is_idle, Wire.port_told, Wire.idle_before};

use crate::{QueuedWire, Wire};
use ntp_packet::{Moment, Stamp};
use ntp_port::{Arrival, DatagramRoom, Port, PortCounts, PortFault, QueuedPort, TimedPort};
use ntp_service::Address;
use std::io::ErrorKind;
use std::net::{Ipv4Addr, SocketAddr, SocketAddrV4};

/// A port over a wire. It takes no memory. A source that is no IPv4 address is a `Receive` fault, a reply that would wait for
/// room in the send buffer a `Send` fault.
#[derive(Drop)]
pub struct UdpPort<W: Wire> {
    /// The wire whose calls it makes.
    pub wire: W,
    // What the clock showed last in this turn, and whether a send was tried since it was read by `now`.
    shown: Option<Moment>,
    has_tried_send: bool,
    counts: PortCounts,
    /// How many replies were not sent since they would have waited for room in the send buffer, as far as the number can count.
    pub would_wait: u64,
    ghost few: { failed_calls counts < 2 ^ 64 },
}

impl<W: Wire> UdpPort<W> {
    ghost use Rattle.ntp_host.specs.UdpPort.{told_by};

    /// A port over a wire, without a failure.
    pub fn new(wire: W) -> UdpPort<W>
        ensures counts { failed_calls result.counts ≡ 0 }
        ensures turns { told_by result ≡ option_map (port_told None false) (W.turns wire) }
    {
        UdpPort {
            wire,
            shown: None,
            has_tried_send: false,
            counts: PortCounts::NONE,
            would_wait: 0,
        }
    }

    // Takes a datagram, for which it waits as the wire does. Counts a wait in which none came in time, or a signal came.
    fn take(&mut self, room: &mut DatagramRoom) -> Option<Result<Arrival, PortFault>>
        requires { failed_calls self.old.counts < 2 ^ 64 - 1 }
        ensures length { IfSome result (λ received. IfOk received (λ arrival. arrival.length ≤ most_received_octets)) }
        ensures fault { IfSome result (λ received. IfErr received (λ fault. fault ≡ PortFault.Receive)) }
        ensures counts { CountsWait self.old.counts self.new.counts result }
        ensures dropped { self.new.counts.dropped ≡ self.old.counts.dropped }
        ensures turns { IfSome result (λ received. ReceiveTells (told_by self.old) (told_by self.new) received room.new) }
        ensures nothing { IfNone result (told_by self.new ≡ told_by self.old) }
        ensures history { TellsEvents (W.seen self.old.wire) (W.seen self.new.wire) (seen_in_wait result) }
        ensures idle { IfNone result (IfSome (W.turns self.old.wire) (λ old. IsSomeAnd (W.turns self.new.wire)
            (λ new. idle_before new < idle_before old))) }
    {
        match self.wire.receive(room) {
            Ok((length, SocketAddr::V4(source))) => {
                self.shown = None;
                let receipt = self.wire.now();
                Some(Ok(Arrival {
                    address: Address(source.ip().octets()),
                    port: source.port(),
                    length,
                    receipt,
                }))
            }
            Ok((_, SocketAddr::V6(_))) => Some(self.failed()),
            Err(error) => match error.kind() {
                ErrorKind::WouldBlock | ErrorKind::TimedOut | ErrorKind::Interrupted => {
                    self.counts.idle_waits = self.counts.idle_waits.saturating_add(1);
                    None
                }
                _ => Some(self.failed()),
            },
        }
    }

    fn failed(&mut self) -> Result<Arrival, PortFault>
        requires { failed_calls self.old.counts < 2 ^ 64 - 1 }
        ensures fault { result ≡ Err PortFault.Receive }
        ensures counts { self.new.counts ≡ record self.old.counts { failed_receives = self.old.counts.failed_receives + 1 } }
        ensures wire { self.new.wire ≡ self.old.wire }
        ensures shown { self.new.shown ≡ None }
    {
        self.shown = None;
        self.counts.failed_receives += 1;
        Err(PortFault::Receive)
    }

    fn not_sent(&mut self, would_wait: bool) -> Result<(), PortFault>
        requires { failed_calls self.old.counts < 2 ^ 64 - 1 }
        ensures fault { result ≡ Err PortFault.Send }
        ensures counts { self.new.counts ≡ counted_send true self.old.counts }
        ensures turns { told_by self.new ≡ told_by self.old }
    {
        self.would_wait = self.would_wait.saturating_add(u64::from(would_wait));
        self.counts.failed_sends += 1;
        Err(PortFault::Send)
    }
}

fn middle(first: Option<Moment>, second: Moment) -> Moment
    ensures { result ≡ middle first second }
{
    match first {
        Some(first) if first.era == second.era && first.stamp.0 <= second.stamp.0 => Moment {
            era: second.era,
            stamp: Stamp(second.stamp.0 - (second.stamp.0.saturating_sub(first.stamp.0)) / 2),
        },
        _ => second,
    }
}

impl<W: Wire> Port for UdpPort<W> {
    ghost use Rattle.ntp_host.specs.UdpPort.{told_by};

    ghost told = { told_by };

    ghost counts = { λ udp. udp.counts };

    /// Waits until a datagram comes: a time limit that passes, or a signal, ends no turn.
    fn receive(&mut self, room: &mut DatagramRoom) -> Result<Arrival, PortFault> {
        for _wait in 0..u64::MAX {
            if let Some(received) = self.take(room) {
                return received;
            }
        }
        self.failed()
    }

    /// What the clock shows; just after a send the middle between that and what it showed before, nearer to the departure.
    fn now(&mut self) -> Moment {
        let reading = self.wire.now();
        let before = self.has_tried_send.then_some(self.shown).flatten();
        self.shown = Some(reading);
        self.has_tried_send = false;
        middle(before, reading)
    }

    fn send(&mut self, address: Address, port: u16, reply: &[u8]) -> Result<(), PortFault> {
        let target = SocketAddrV4::new(Ipv4Addr::from(address.0), port);
        self.has_tried_send = true;
        match self.wire.send(target, reply) {
            Ok(sent) if sent == reply.len() => Ok(()),
            Ok(_) => self.not_sent(false),
            Err(error) => self.not_sent(error.kind() == ErrorKind::WouldBlock),
        }
    }

    fn failures(&self) -> u64 {
        self.counts.failed_receives + self.counts.failed_sends
    }
}

impl<W: Wire> TimedPort for UdpPort<W> {
    /// Waits for a datagram as long as the wire does. A signal ends the wait too.
    fn receive_in_time(&mut self, room: &mut DatagramRoom) -> Option<Result<Arrival, PortFault>> {
        self.take(room)
    }
}

impl<W: QueuedWire> QueuedPort for UdpPort<W> {
    ghost history = { λ udp. W.seen udp.wire };

    fn ticks(&mut self) -> u64 {
        self.wire.ticks()
    }

    fn most_held(&mut self) -> u64 {
        self.wire.most_held()
    }

    fn is_empty(&mut self) -> bool {
        self.wire.is_empty()
    }

    /// A wait ends too when that has come which is expected at another socket. It fails at a socket that was shut down.
    fn take_in_time(&mut self, room: &mut DatagramRoom) -> Option<Result<Arrival, PortFault>> {
        if self.wire.wait() {
            return Some(self.failed());
        }
        self.take(room)
    }

    fn drop_next(&mut self) -> bool {
        let has_dropped = self.wire.drop_next();
        if has_dropped {
            self.shown = None;
        }
        has_dropped
    }
}
