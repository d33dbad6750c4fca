//! What a port tells of the queue of its datagrams.
ghost use Rattle.std.specs.Prelude.{◌≡◌, ◌-◌, ◌≤◌, ◌<◌, ◌^◌, Option, None, List, [], ◌∷◌, IfOk, IfErr, IfSome, IfNone, false, if◌then◌else◌};
ghost use Rattle.ntp_port.specs.Port.{most_received_octets, failed_calls, CountsWait, ReceiveTells, DropTells};
ghost use Rattle.ntp_port.specs.declared.queue_event.QueueEvent.{QueueEvent};
ghost use Rattle.ntp_port.specs.Queue.{ReadsClock, TellsEvents, seen_in_wait};

use crate::{Arrival, DatagramRoom, PortFault, TimedPort};

/// A port whose datagrams wait in a queue, first in, first out, that can be looked at; with a clock that never goes
/// back.
///
/// A port may tell what its calls saw of queue and clock, as a history. No call of `Port` or `TimedPort` that takes no
/// datagram adds to it.
pub trait QueuedPort: TimedPort {
    // What its calls have seen of the queue and of the clock, newest first, where it tells that.
    ghost history: { Self → Option (List QueueEvent) } = { λ _. None };

    /// What the clock shows that never goes back, in nanoseconds.
    fn ticks(&mut self) -> u64
        ensures counts { Self.counts self.new ≡ Self.counts self.old }
        ensures turns { Self.told self.new ≡ Self.told self.old }
        ensures history { ReadsClock (history self.old) (history self.new) result };

    /// Looks, without waiting, how many datagrams are in the queue at most.
    fn most_held(&mut self) -> u64
        ensures counts { Self.counts self.new ≡ Self.counts self.old }
        ensures turns { Self.told self.new ≡ Self.told self.old }
        ensures history { TellsEvents (history self.old) (history self.new) (λ shown. QueueEvent.Held result shown ∷ []) };

    /// Looks, without waiting, whether the queue is empty; `false` also where it cannot be told.
    fn is_empty(&mut self) -> bool
        ensures counts { Self.counts self.new ≡ Self.counts self.old }
        ensures turns { Self.told self.new ≡ Self.told self.old }
        ensures history { TellsEvents (history self.old) (history self.new)
            (λ shown. (if result then QueueEvent.Held 0 shown else QueueEvent.Looked shown) ∷ []) };

    /// Takes a datagram out of the queue, as `receive_in_time` does. Where it gives nothing, the queue was empty at some
    /// moment of the call.
    fn take_in_time(&mut self, datagram: &mut DatagramRoom) -> Option<Result<Arrival, PortFault>>
        requires { failed_calls (Self.counts self.old) < 2 ^ 64 - 1 }
        ensures length { IfSome result (λ received. IfOk received (λ arrival. arrival.length ≤ most_received_octets)) }
        ensures fault { IfSome result (λ received. IfErr received (λ fault. fault ≡ PortFault.Receive)) }
        ensures counts { CountsWait (Self.counts self.old) (Self.counts self.new) result }
        ensures turns { IfSome result (λ received. ReceiveTells (Self.told self.old) (Self.told self.new) received datagram.new) }
        ensures nothing { IfNone result ((Self.is_prompt ≡ false) × (Self.told self.new ≡ Self.told self.old)) }
        ensures history { TellsEvents (history self.old) (history self.new) (seen_in_wait result) };

    /// Takes a datagram out of the queue without waiting for one, and drops it. Whether it did: `false` tells nothing of the
    /// queue, and is no failure.
    fn drop_next(&mut self) -> bool
        ensures counts { Self.counts self.new ≡ Self.counts self.old }
        ensures turns { DropTells (Self.told self.old) (Self.told self.new) result }
        ensures history { TellsEvents (history self.old) (history self.new)
            (λ shown. if result then QueueEvent.Taken shown ∷ [] else []) };
}
