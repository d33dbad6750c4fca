//! What a server asks of the network and of the clock.
ghost use Rattle.std.specs.Prelude.{◌≡◌, ◌-◌, ◌≤◌, ◌<◌, ◌^◌, Option, None, IfOk, IfErr, IfSome, IfNone, Bool, false, is_err};
ghost use Rattle.ntp_port.specs.declared.port.PortCounts.{PortCounts};
ghost use Rattle.ntp_port.specs.Port.{Told, most_received_octets, failed_calls, counted_send, CountsReceive, CountsWait, Receives, DropsAny, NowTells, SendTells};

use ntp_packet::Moment;
use ntp_service::{Address, Arrival};

/// How many octets of a datagram are taken at most: one more than a packet may have, so that a longer one is
/// still told from the longest packet.
pub const MOST_RECEIVED_OCTETS: usize = 1025;

/// Room for a datagram that is received. A longer one is cut.
pub type DatagramRoom = [u8; MOST_RECEIVED_OCTETS];

/// Why a call of a port gave nothing.
#[derive(Clone, Copy, Debug, PartialEq, Eq)]
pub enum PortFault {
    /// No datagram could be received. It is the receiving calls' alone.
    Receive,
    /// The reply could not be sent. It is `send`'s alone.
    Send,
}

/// What a port counts.
#[derive(Clone, Copy, Debug, PartialEq, Eq)]
pub struct PortCounts {
    /// How many receives failed.
    pub failed_receives: u64,
    /// How many sends failed.
    pub failed_sends: u64,
    /// How many datagrams were dropped, as far as the number can count.
    pub dropped: u64,
    /// How many waits ended with nothing, as far as the number can count.
    pub idle_waits: u64,
}

impl PortCounts {
    /// Nothing was counted yet.
    pub const NONE: PortCounts = PortCounts {
        failed_receives: 0,
        failed_sends: 0,
        dropped: 0,
        idle_waits: 0,
    };
}

/// Where datagrams come from and replies go to, with the clock.
///
/// A port may tell its turns: what its calls will answer, as a list of turns. Each `receive` begins one. Before it, a port that may drop
/// can have begun others, each with a datagram that is dropped; and a `receive` of it that fails may have begun none.
pub trait Port {
    // What its calls will answer from here on, where the port tells it.
    ghost told: { Self → Option Told } = { λ _. None };

    // Whether it may drop datagrams that it takes.
    ghost may_drop: { Bool } = { false };

    // What it counted.
    ghost counts: { Self → PortCounts };

    /// Receives a datagram into the front of `datagram`, cut to 1,025 octets. The one fault is `Receive`.
    fn receive(&mut self, datagram: &mut DatagramRoom) -> Result<Arrival, PortFault>
        requires { failed_calls (counts self.old) < 2 ^ 64 - 1 }
        ensures length { IfOk result (λ arrival. arrival.length ≤ most_received_octets) }
        ensures fault { IfErr result (λ fault. fault ≡ PortFault.Receive) }
        ensures counts { CountsReceive (counts self.old) (counts self.new) (is_err result) }
        ensures turns { Receives may_drop (counts self.old).dropped (counts self.new).dropped (told self.old) (told self.new) result datagram.new };

    /// The moment that the clock shows. A call never fails.
    fn now(&mut self) -> Moment
        ensures counts { counts self.new ≡ counts self.old }
        ensures turns { NowTells (told self.old) (told self.new) result };

    /// Sends a reply to an address and a UDP port. The one fault is `Send`.
    fn send(&mut self, address: Address, port: u16, reply: &[u8]) -> Result<(), PortFault>
        requires { failed_calls (counts self.old) < 2 ^ 64 - 1 }
        ensures fault { IfErr result (λ fault. fault ≡ PortFault.Send) }
        ensures counts { counts self.new ≡ counted_send (is_err result) (counts self.old) }
        ensures turns { SendTells (told self.old) (told self.new) address port reply.now result };

    /// How many calls of `receive` and `send` failed.
    fn failures(&self) -> u64
        ensures { result ≡ failed_calls (counts self.now) };
}

/// A port at which a wait for a datagram may end with none, so that there is time to look at something else.
pub trait TimedPort: Port {
    // Whether no wait of it ends with none.
    ghost is_prompt: { Bool } = { false };

    /// Receives a datagram as `receive` does, where one comes in time. Nothing where none did, which is no failure and
    /// begins no turn but those that are dropped.
    fn receive_in_time(&mut self, datagram: &mut DatagramRoom) -> Option<Result<Arrival, PortFault>>
        requires { failed_calls (Self.counts self.old) < 2 ^ 64 - 1 }
        ensures length { IfSome result (λ received. IfOk received (λ arrival. arrival.length ≤ most_received_octets)) }
        ensures fault { IfSome result (λ received. IfErr received (λ fault. fault ≡ PortFault.Receive)) }
        ensures counts { CountsWait (Self.counts self.old) (Self.counts self.new) result }
        ensures turns { IfSome result (λ received. Receives Self.may_drop (Self.counts self.old).dropped (Self.counts self.new).dropped
            (Self.told self.old) (Self.told self.new) received datagram.new) }
        ensures nothing { IfNone result ((is_prompt ≡ false) × DropsAny Self.may_drop (Self.counts self.old).dropped (Self.counts self.new).dropped
            (Self.told self.old) (Self.told self.new)) };
}
