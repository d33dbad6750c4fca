//! A port that passes on only datagrams that have not waited for long.
ghost use Rattle.std.specs.Prelude.{◌≡◌, ◌+◌, ◌-◌, ◌/◌, ◌≤◌, ◌<◌, ◌^◌, List, All, Option, None, Some, Result, Err, IfOk, IfErr, IfSome, IfNone, false, true, option_map, is_err, if◌then◌else◌};
ghost use Rattle.std.specs.Option.{option_map_or};
ghost use Rattle.ntp_port.specs.Port.{most_received_octets, failed_calls, counted_send, CountsReceive, CountsWait, Receives, DropsAny, NowTells, SendTells};
ghost use Rattle.ntp_port.specs.{declared.queue_event.QueueEvent.QueueEvent, Queue.ReadsClock};
ghost use Rattle.ntp_port.specs.Freshness.{moment_of, IsInOrder, WasLookedAt, WasWatched};
ghost use Rattle.ntp_port.specs.Watch.{Watches, Counts, longest_of, IsCounted, kept_after};

use crate::queue_watch::QueueWatch;
use crate::queued_port::QueuedPort;
use crate::{Arrival, DatagramRoom, Port, PortCounts, PortFault, TimedPort};
use ntp_packet::Moment;
use ntp_service::Address;

/// Least time between two looks at the queue, in nanoseconds: a ten-thousandth of a second. So looking costs little
/// while it is never empty. The exception: a look comes at once where a datagram was dropped, so that what comes after a stop is
/// answered.
const LOOK_PERIOD: u64 = 100_000;

/// How many times the queue is swept in one call at most, so that there is time to look at something else.
const MOST_SWEEPS: u32 = 4;

/// A port that passes on only datagrams that can have waited in the queue of another port for less than a given time; it drops
/// and counts the others, which are no events.
///
/// Where one is too old, so are those behind it that were in the queue when it was looked at last: these are swept out, one
/// after another, and neither the clock nor the queue is asked in between. So what came after that look is reached
/// soonest. One is dropped from hand only where the queue was looked at and counted in time before, and a sweep takes out no more than
/// a look counted.
///
/// The other port's waits have to end well within that time: else a datagram that came during a long wait is dropped.
#[derive(Drop)]
pub struct FreshPort<P: QueuedPort> {
    port: P,
    watch: QueueWatch,
    // What the clock showed last. It was shown before any call that is still to be made, so that call begins then or later.
    reading: u64,
    // What it shows when the queue may be looked at again.
    next_look: u64,
    counts: PortCounts,
    sweeps: u64,
    ghost few: { failed_calls counts < 2 ^ 64 },
    ghost fits: { counts.dropped < 2 ^ 64 },
    ghost swept: { sweeps < 2 ^ 64 },
    ghost below: { failed_calls (P.counts port) ≤ failed_calls counts },
}

// What came of one take.
enum Next {
    // No datagram came in time.
    Nothing,
    // None could be received.
    Fault(PortFault),
    // One came that may be answered.
    Fresh(Arrival),
    // One came that was dropped.
    Stale,
}

impl<P: QueuedPort> FreshPort<P> {
    ghost use Rattle.ntp_port.specs.Fresh.{KeepsHistory, IsShown, counted_on, kept_by, PassesOnInTime};
    ghost use Rattle.ntp_port.specs.Next.{TakesNext, LooksAtQueue, Drops, CountsNext};

    /// A port that passes on what may be answered of what comes at `port`, by what `watch` was told and will be. It has dropped
    /// nothing, and calls of `port` that failed before are counted as receives. `watch` may know the queue already, by the port's
    /// clock: a queue that is new was empty just before.
    pub fn new(mut port: P, watch: QueueWatch) -> FreshPort<P>
        ensures stands { (history : List QueueEvent) → Watches watch history → IsInOrder history
            → All (λ event. moment_of event ≤ result.reading) history → Counts watch history
            → KeepsHistory result.watch result.reading result.next_look history }
        ensures watch { result.watch ≡ watch }
        ensures shown { IsShown result.reading (P.history result.port) }
        ensures turns { P.told result.port ≡ P.told port }
        ensures history { ReadsClock (P.history port) (P.history result.port) result.reading }
        ensures stale { result.counts.dropped ≡ 0 }
        ensures idle { result.counts.idle_waits ≡ 0 }
        ensures sends { result.counts.failed_sends ≡ 0 }
        ensures sweeps { result.sweeps ≡ 0 }
        ensures failures { failed_calls result.counts ≡ failed_calls (P.counts port) }
    {
        let reading = port.ticks();
        let failed_receives = port.failures();
        FreshPort {
            port,
            watch,
            reading,
            next_look: 0,
            counts: PortCounts {
                failed_receives,
                ..PortCounts::NONE
            },
            sweeps: 0,
        }
    }

    /// The other port.
    pub fn port(&self) -> &P
        ensures { result.now ≡ self.now.port }
    {
        &self.port
    }

    /// How many datagrams were dropped, as far as the number can count.
    pub fn stale(&self) -> u64
        ensures { result ≡ self.now.counts.dropped }
    {
        self.counts.dropped
    }

    /// How many times the queue was swept, which is how many datagrams were dropped from hand, as far as the number can count.
    pub fn sweeps(&self) -> u64
        ensures { result ≡ self.now.sweeps }
    {
        self.sweeps
    }

    /// How long the datagram that is taken next can have waited when the clock was last read, in nanoseconds; nothing where nothing
    /// is known of the queue.
    pub fn waited(&self) -> Option<u64>
        ensures { result ≡ option_map (λ at. self.now.reading - at) (kept_after self.now.watch 0) }
    {
        let reading = self.reading;
        self.watch.known().map(|at| reading.saturating_sub(at))
    }

    /// Receives a datagram that may be answered, where one comes in time: those that may not be answered, and come before it, are
    /// dropped and counted. At most four of them are dropped from hand, each with a sweep behind it. Nothing only where four were, or
    /// where the queue was found empty: so never without a look at it.
    ///
    /// Whatever history the watch stood for, it goes on to stand for one more, with which this is so; and where the other port
    /// tells what it saw, it is just that. Where it tells its turns, what is passed on is its next one, behind as many as were dropped.
    pub fn receive_fresh(
        &mut self,
        datagram: &mut DatagramRoom,
    ) -> Option<Result<Arrival, PortFault>>
        requires { failed_calls self.old.counts < 2 ^ 64 - 1 }
        ensures length { IfSome result (λ received. IfOk received (λ arrival. arrival.length ≤ most_received_octets)) }
        ensures fault { IfSome result (λ received. IfErr received (λ fault. fault ≡ PortFault.Receive)) }
        ensures counts { CountsWait self.old.counts self.new.counts result }
        ensures fresh { PassesOnInTime (kept_by self.old) (kept_by self.new) result datagram.new }
    {
        for _sweep in 0..MOST_SWEEPS {
            match self.take_next(datagram) {
                Next::Nothing => {
                    self.counts.idle_waits = self.counts.idle_waits.saturating_add(1);
                    return None;
                }
                Next::Fault(fault) => return Some(Err(fault)),
                Next::Fresh(arrival) => return Some(Ok(arrival)),
                Next::Stale => {
                    self.sweeps = self.sweeps.saturating_add(1);
                    self.sweep();
                }
            }
        }
        self.counts.idle_waits = self.counts.idle_waits.saturating_add(1);
        None
    }

    // Takes the next datagram out of the queue, and judges it.
    fn take_next(&mut self, datagram: &mut DatagramRoom) -> Next
        requires { failed_calls self.old.counts < 2 ^ 64 - 1 }
        ensures fresh { (arrival : Arrival) → result ≡ Next.Fresh arrival → arrival.length ≤ most_received_octets }
        ensures fault { (fault : PortFault) → result ≡ Next.Fault fault → fault ≡ PortFault.Receive }
        ensures counts { CountsNext self.old.counts self.new.counts result }
        ensures next { TakesNext (kept_by self.old) (kept_by self.new) result datagram.new }
    {
        self.look();
        let received = self.port.take_in_time(datagram);
        let before = self.reading;
        self.reading = self.port.ticks().max(before);
        let Some(received) = received else {
            self.watch.saw(0, before);
            return Next::Nothing;
        };
        match received {
            Err(fault) => {
                self.counts.failed_receives += 1;
                Next::Fault(fault)
            }
            Ok(arrival) => {
                let is_fresh = self.watch.is_fresh(self.reading);
                self.watch.took();
                if is_fresh {
                    return Next::Fresh(arrival);
                }
                self.next_look = 0;
                self.counts.dropped = self.counts.dropped.saturating_add(1);
                Next::Stale
            }
        }
    }

    // Drops what was in the queue when it was looked at last, as long as it may not be answered.
    fn sweep(&mut self)
        ensures counts { CountsNext self.old.counts self.new.counts Next.Stale }
        ensures drops { Drops 0 (kept_by self.old) (kept_by self.new) }
    {
        for _ in 0..self.watch.waiting() {
            if !self.drop_next() {
                return;
            }
        }
    }

    // Drops the next datagram, where it is one of those that were counted and may not be answered by what is known. Whether it did.
    fn drop_next(&mut self) -> bool
        ensures counts { CountsNext self.old.counts self.new.counts Next.Stale }
        ensures drops { Drops 0 (kept_by self.old) (kept_by self.new) }
        ensures did { self.new.counts.dropped ≡ counted_on self.old.counts.dropped (if result then 1 else 0) }
    {
        let dropped = self.counts.dropped;
        if !self.watch.is_waiting() {
            return false;
        }
        if self.watch.is_fresh(self.reading) {
            return false;
        }
        let has_dropped = self.port.drop_next();
        if has_dropped {
            self.watch.took();
            self.counts.dropped = dropped.saturating_add(1);
        }
        has_dropped
    }

    // Looks at the queue where it is time to, once in a ten-thousandth of a second at most.
    fn look(&mut self)
        ensures counts { self.new.counts ≡ self.old.counts }
        ensures looks { LooksAtQueue (kept_by self.old) (kept_by self.new) (WasWatched (longest_of self.old.watch)) }
    {
        if self.reading >= self.next_look {
            self.look_where_due();
            self.next_look = self.reading.saturating_add(LOOK_PERIOD);
        }
    }

    // Looks at the queue where what is known of it is old.
    fn look_where_due(&mut self)
        ensures counts { self.new.counts ≡ self.old.counts }
        ensures looks { LooksAtQueue (kept_by self.old) (kept_by self.new) (WasLookedAt (longest_of self.old.watch / 10)) }
        ensures counted { IsCounted self.new.watch self.old.reading }
    {
        if self.watch.is_due(self.reading) {
            self.look_now();
        }
    }

    // Looks whether the queue is empty, and how many datagrams are in it where that has to be known.
    fn look_now(&mut self)
        ensures counts { self.new.counts ≡ self.old.counts }
        ensures looks { LooksAtQueue (kept_by self.old) (kept_by self.new) (WasLookedAt 0) }
        ensures counted { IsCounted self.new.watch self.old.reading }
    {
        self.look_whether_empty();
        self.look_how_many();
    }

    // Looks whether the queue is empty.
    fn look_whether_empty(&mut self)
        ensures counts { self.new.counts ≡ self.old.counts }
        ensures looks { LooksAtQueue (kept_by self.old) (kept_by self.new) (WasLookedAt 0) }
    {
        if self.port.is_empty() {
            self.watch.saw(0, self.reading);
        }
    }

    // Looks how many datagrams are in the queue, where no earlier look is waited for and what is known is old: that costs more.
    fn look_how_many(&mut self)
        ensures counts { self.new.counts ≡ self.old.counts }
        ensures looks { LooksAtQueue (kept_by self.old) (kept_by self.new) (λ history now. Unit {0}) }
        ensures counted { IsCounted self.new.watch self.old.reading }
    {
        if !self.watch.is_waiting() && self.watch.is_old(self.reading) {
            let count = self.port.most_held();
            self.watch.saw(count, self.reading);
        }
    }
}

impl<P: QueuedPort> Port for FreshPort<P> {
    ghost use Rattle.ntp_port.specs.Fresh.{kept_by, PassesOnFresh};

    // It tells what the other port does, and drops some of that port's turns.
    ghost told = { λ f. P.told f.port };

    ghost may_drop = { true };

    ghost counts = { λ f. f.counts };

    /// Waits until a datagram comes that may be answered. It fails where the other port does, and after 2^64 - 1 waits that gave none.
    fn receive(&mut self, datagram: &mut DatagramRoom) -> Result<Arrival, PortFault>
        requires { failed_calls self.old.counts < 2 ^ 64 - 1 }
        ensures length { IfOk result (λ arrival. arrival.length ≤ most_received_octets) }
        ensures fault { IfErr result (λ fault. fault ≡ PortFault.Receive) }
        ensures counts { CountsReceive self.old.counts self.new.counts (is_err result) }
        ensures turns { Receives true self.old.counts.dropped self.new.counts.dropped (P.told self.old.port) (P.told self.new.port) result datagram.new }
        ensures fresh { (given : Option (Result Arrival PortFault)) × PassesOnFresh (kept_by self.old) (kept_by self.new) given datagram.new
            × (result ≡ option_map_or (λ received. received) given (Err PortFault.Receive)) }
    {
        for _wait in 0..u64::MAX {
            if let Some(received) = self.receive_fresh(datagram) {
                return received;
            }
        }
        self.counts.failed_receives += 1;
        Err(PortFault::Receive)
    }

    /// The moment that the other port's clock shows, read once.
    fn now(&mut self) -> Moment
        ensures counts { self.new.counts ≡ self.old.counts }
        ensures watch { self.new.watch ≡ self.old.watch }
        ensures reading { self.new.reading ≡ self.old.reading }
        ensures next_look { self.new.next_look ≡ self.old.next_look }
        ensures sweeps { self.new.sweeps ≡ self.old.sweeps }
        ensures turns { NowTells (P.told self.old.port) (P.told self.new.port) result }
    {
        self.port.now()
    }

    /// Sends a reply by the other port, once.
    fn send(&mut self, address: Address, port: u16, reply: &[u8]) -> Result<(), PortFault>
        requires { failed_calls self.old.counts < 2 ^ 64 - 1 }
        ensures fault { IfErr result (λ fault. fault ≡ PortFault.Send) }
        ensures counts { self.new.counts ≡ counted_send (is_err result) self.old.counts }
        ensures watch { self.new.watch ≡ self.old.watch }
        ensures reading { self.new.reading ≡ self.old.reading }
        ensures next_look { self.new.next_look ≡ self.old.next_look }
        ensures sweeps { self.new.sweeps ≡ self.old.sweeps }
        ensures turns { SendTells (P.told self.old.port) (P.told self.new.port) address port reply.now result }
    {
        let sent = self.port.send(address, port, reply);
        if sent.is_err() {
            self.counts.failed_sends += 1;
        }
        sent
    }

    fn failures(&self) -> u64 {
        self.counts.failed_receives + self.counts.failed_sends
    }
}

impl<P: QueuedPort> TimedPort for FreshPort<P> {
    ghost use Rattle.ntp_port.specs.Fresh.{kept_by, PassesOnInTime};

    /// As `receive_fresh`.
    fn receive_in_time(&mut self, datagram: &mut DatagramRoom) -> Option<Result<Arrival, PortFault>>
        requires { failed_calls self.old.counts < 2 ^ 64 - 1 }
        ensures length { IfSome result (λ received. IfOk received (λ arrival. arrival.length ≤ most_received_octets)) }
        ensures fault { IfSome result (λ received. IfErr received (λ fault. fault ≡ PortFault.Receive)) }
        ensures counts { CountsWait self.old.counts self.new.counts result }
        ensures turns { IfSome result (λ received.
            Receives true self.old.counts.dropped self.new.counts.dropped (P.told self.old.port) (P.told self.new.port) received datagram.new) }
        ensures nothing { IfNone result ((false ≡ false)
            × DropsAny true self.old.counts.dropped self.new.counts.dropped (P.told self.old.port) (P.told self.new.port)) }
        ensures fresh { PassesOnInTime (kept_by self.old) (kept_by self.new) result datagram.new }
    {
        self.receive_fresh(datagram)
    }
}
