//! A server, turn by turn.
ghost use Rattle.std.specs.Prelude.{◌≡◌, ◌+◌, ◌-◌, ◌≤◌, ◌<◌, ◌^◌, option_map, IfOk, is_err};
ghost use Rattle.std.specs.Result.{result_ok};
ghost use Rattle.ntp_service.specs.InTurn.{InTurn};
ghost use Rattle.ntp_port.specs.Port.{most_received_octets, failed_calls, CountsReceive, Receives};

use crate::reporter::Reporter;
use ntp_admin::apply_lines;
use ntp_packet::Moment;
use ntp_port::{
    CommandsSource, DatagramRoom, MOST_RECEIVED_OCTETS, PortFault, ReferenceSource, TimedPort,
    answer_received,
};
use ntp_service::{Arrival, Observer, Service};
use std::alloc::Allocator;

// More waits in a turn than a number of 64 bits counts.
const UNCOUNTED_WAITS: u128 = 1 << 64;

/// A service, and what it works with.
#[derive(Drop)]
pub struct Server<P, C, R, O, A: Allocator> {
    /// Where datagrams come from and replies go to.
    pub port: P,
    /// Where the commands come from.
    pub commands: C,
    /// How many lines of the commands file are applied.
    pub applied: u64,
    /// Where the state of the clock comes from.
    pub reference: R,
    /// Who is told what is done.
    pub observer: O,
    /// Who answers.
    pub service: Service<A>,
}

impl<
    P: TimedPort,
    C: CommandsSource<A>,
    R: ReferenceSource,
    O: Observer,
    A: Allocator + Copy,
> Server<P, C, R, O, A> {
    ghost use Rattle.ntp_server.specs.Rounds.{ServesRounds};
    ghost use Rattle.ntp_server.specs.Steps.{Looks, Starts, Waits, MakesTurn};

    /// Carries out the commands that stand there at the start: looks at them until a look gives nothing. Then makes `turns`
    /// turns. In each a datagram is waited for. Once it has come, and whenever a wait ended with none, the commands are looked
    /// at, and the lines that this gives are carried out, in order. Then the datagram is answered with the state of the clock
    /// that is in force, and its reply is sent, as `serve` of a port does it. The observer hears of each line and each turn as
    /// it is done. It takes memory for enrolments, rollovers and the octets of new lines.
    ///
    /// Shows a reporter this server as it is: after each turn, with when its datagram came, and with nothing where none could be
    /// received; and whenever a wait ended with none, with nothing, once new commands are carried out and the source of the
    /// clock's state has looked after itself. The reporter sees the server behind a shared reference: what the server does is the
    /// same whatever the reporter does. Behind the last turn it has been shown the server as it is then.
    pub fn serve<Q: Reporter<Server<P, C, R, O, A>>>(&mut self, turns: u64, reporter: &mut Q)
        requires { failed_calls (P.counts self.old.port) + turns < 2 ^ 64 }
        ensures rounds { ServesRounds self.old self.new
            (record { port = P.told; counts = P.counts; looked = C.looked; asked = R.asked; tended = R.tended; heard = O.heard })
            (InTurn Q.shown reporter.old reporter.new) P.is_prompt P.may_drop turns }
        ensures known { 0 < turns → Q.knows reporter.new self.new }
    {
        let mut datagram = [0; MOST_RECEIVED_OCTETS];
        self.start();
        for _turn in 0..turns {
            self.turn(&mut datagram, reporter);
        }
    }

    // Makes one turn.
    fn turn<Q: Reporter<Server<P, C, R, O, A>>>(
        &mut self,
        datagram: &mut DatagramRoom,
        reporter: &mut Q,
    )
        requires { failed_calls (P.counts self.old.port) < 2 ^ 64 - 1 }
        ensures made { MakesTurn self.old self.new
            (record { port = P.told; counts = P.counts; looked = C.looked; asked = R.asked; tended = R.tended; heard = O.heard })
            (InTurn Q.shown reporter.old reporter.new) P.is_prompt P.may_drop }
        ensures known { Q.knows reporter.new self.new }
    {
        let received = self.wait(datagram, reporter);
        let receipt = receipt_of(&received);
        self.look(receipt);
        let reference = self.reference.in_force(receipt);
        let outcome = answer_received(
            &mut self.port,
            &mut self.service,
            &reference,
            received,
            datagram,
        );
        self.observer.turn(&outcome);
        reporter.report(self, receipt);
    }

    // Waits until a datagram has come or could not be received, and carries out what is ordered meanwhile.
    fn wait<Q: Reporter<Server<P, C, R, O, A>>>(
        &mut self,
        datagram: &mut DatagramRoom,
        reporter: &mut Q,
    ) -> Result<Arrival, PortFault>
        requires { failed_calls (P.counts self.old.port) < 2 ^ 64 - 1 }
        ensures length { IfOk result (λ arrival. arrival.length ≤ most_received_octets) }
        ensures counts { CountsReceive (P.counts self.old.port) (P.counts self.new.port) (is_err result) }
        ensures turns { Receives P.may_drop (P.counts self.old.port).dropped (P.counts self.new.port).dropped
            (P.told self.old.port) (P.told self.new.port) result datagram.new }
        ensures waits { Waits self.old self.new
            (record { port = P.told; counts = P.counts; looked = C.looked; asked = R.asked; tended = R.tended; heard = O.heard })
            (InTurn Q.shown reporter.old reporter.new) P.is_prompt }
    {
        for _wait in 0..UNCOUNTED_WAITS {
            if let Some(received) = self.port.receive_in_time(datagram) {
                return received;
            }
            self.look(None);
            self.reference.tend();
            reporter.report(self, None);
        }
        self.port.receive(datagram)
    }

    // Carries out the commands that stand there at the start: looks until a look gives nothing.
    fn start(&mut self)
        ensures port { self.new.port ≡ self.old.port }
        ensures reference { self.new.reference ≡ self.old.reference }
        ensures starts { Starts self.old self.new
            (record { port = P.told; counts = P.counts; looked = C.looked; asked = R.asked; tended = R.tended; heard = O.heard }) }
    {
        for _look in 0..u64::MAX {
            if !self.look(None) {
                return;
            }
        }
    }

    // Looks at the commands, and carries out the lines that it gives. Returns whether it gave something.
    fn look(&mut self, receipt: Option<Moment>) -> bool
        ensures port { self.new.port ≡ self.old.port }
        ensures reference { self.new.reference ≡ self.old.reference }
        ensures looks { Looks self.old self.new
            (record { port = P.told; counts = P.counts; looked = C.looked; asked = R.asked; tended = R.tended; heard = O.heard })
            receipt result }
    {
        let before = self.applied;
        let alloc = self.service.allocator();
        let Some(octets) = self.commands.look(alloc, receipt) else {
            return false;
        };
        self.applied = apply_lines(&mut self.service, &octets, before, &mut self.observer);
        true
    }
}

// When a datagram came, if one did.
fn receipt_of(received: &Result<Arrival, PortFault>) -> Option<Moment>
    ensures { result ≡ option_map (λ arrival. arrival.receipt) (result_ok received.now) }
{
    match received {
        Ok(arrival) => Some(arrival.receipt),
        Err(_) => None,
    }
}
