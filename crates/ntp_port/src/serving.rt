//! A server: datagrams in, replies out.
ghost use Rattle.std.specs.Prelude.{◌≡◌, ◌+◌, ◌-◌, ◌≤◌, ◌<◌, ◌^◌, Option, OnOk, IfOk, IfErr};
ghost use Rattle.ntp_packet.specs.declared.moment.Moment.{Moment};
ghost use Rattle.ntp_port.specs.Port.{Told, IncomingValue, ReceiveTells, most_received_octets, failed_calls};
ghost use Rattle.ntp_port.specs.Serving.{ServeMakes, TurnMakes};
ghost use Rattle.ntp_port.specs.Sending.{IsInTurn, SendingMakes, counted, saved_in};

use crate::port::{DatagramRoom, MOST_RECEIVED_OCTETS, Port, PortFault};
use ntp_packet::Stamp;
use ntp_reply::{Answer, Reference};
use ntp_service::{Arrival, Sending, Service, TurnOutcome};
use std::alloc::Allocator;

/// What was done in the turns of a server.
#[derive(Clone, Copy, Debug, PartialEq, Eq)]
pub struct Served {
    /// How many datagrams came.
    pub arrivals: u32,
    /// How many replies were sent; those that could not be sent are not counted.
    pub sent: u32,
    /// How many departures were noted.
    pub departed: u32,
}

/// Makes `turns` turns. In each a datagram is received; where that fails, the turn ends. Then the clock is read, and
/// the datagram is answered by the service, with `reference` as the state of the clock. A reply is sent to where the
/// datagram came from. Where that succeeded and the reply was time, the clock is read again, and the service is told
/// that the reply departed. It takes no memory.
///
/// At any port the service is told of at most one datagram a turn, and of the departure of its reply where that was time
/// and was sent, and of nothing else; the outcomes are what the service tells, and the counts are theirs. Which datagrams
/// they are, only a port that tells its turns says: they are those of its turns, but those that it dropped, if it may drop,
/// and what was sent is the replies of the turns that send, each to where its datagram came from, in order.
pub fn serve<P: Port, A: Allocator + Copy>(
    port: &mut P,
    service: &mut Service<A>,
    reference: &Reference,
    turns: u32,
) -> Served
    requires { failed_calls (P.counts port.old) + turns < 2 ^ 64 }
    ensures failures { failed_calls (P.counts port.new) ≤ failed_calls (P.counts port.old) + turns }
    ensures counts { (result.arrivals ≤ turns) × (result.sent ≤ turns) × (result.departed ≤ turns) }
    ensures turns { ServeMakes A reference.now P.may_drop turns (P.told port.old) (P.told port.new)
        (P.counts port.old) (P.counts port.new) service.old service.new result }
{
    let mut datagram = [0; MOST_RECEIVED_OCTETS];
    let mut served = Served {
        arrivals: 0,
        sent: 0,
        departed: 0,
    };
    for _turn in 0..turns {
        let received = port.receive(&mut datagram);
        let outcome = answer_received(port, service, reference, received, &datagram);
        served.count(&outcome);
    }
    served
}

/// Makes the rest of a turn, once a datagram was received into `datagram`, or could not be: it is answered, and a reply
/// is sent, as `serve` does it. It takes no memory.
pub fn answer_received<P: Port, A: Allocator + Copy>(
    port: &mut P,
    service: &mut Service<A>,
    reference: &Reference,
    received: Result<Arrival, PortFault>,
    datagram: &DatagramRoom,
) -> TurnOutcome
    requires length { IfOk received (λ arrival. arrival.length ≤ most_received_octets) }
    requires failures { OnOk received (failed_calls (P.counts port.old) < 2 ^ 64 - 1) }
    ensures idle { IfErr received (λ _. P.told port.new ≡ P.told port.old) }
    ensures makes { (t : Option Told) → ReceiveTells t (P.told port.old) received datagram.now
        → TurnMakes A reference.now received datagram.now t (P.told port.new) (P.counts port.old) (P.counts port.new)
        service.old service.new result }
{
    let Ok(arrival) = received else {
        return TurnOutcome::NothingReceived;
    };
    let transmit = port.now();
    let octets = &datagram[..arrival.length];
    let answer = service.datagram(
        arrival.address,
        arrival.receipt,
        transmit,
        reference,
        octets,
    );
    let sending = send_reply(port, service, arrival, &answer);
    TurnOutcome::Answered {
        arrival,
        answer,
        sending,
    }
}

// Sends the reply of an answer, where it has one, to where its datagram came from, and reports its departure where it was time.
fn send_reply<P: Port, A: Allocator + Copy>(
    port: &mut P,
    service: &mut Service<A>,
    arrival: Arrival,
    answer: &Answer,
) -> Sending
    requires { failed_calls (P.counts port.old) < 2 ^ 64 - 1 }
    ensures { (t : Option Told) (from : IncomingValue) (transmit : Moment) → IsInTurn t (P.told port.old) from transmit
        → from.address ≡ arrival.address → from.port ≡ arrival.port
        → SendingMakes A answer.now from transmit t (P.told port.new) (P.counts port.old) (P.counts port.new)
        service.old service.new result }
{
    let Some(reply) = answer.reply() else {
        return Sending::NoReply;
    };
    let sent = port.send(arrival.address, arrival.port, reply.octets());
    if sent.is_err() {
        return Sending::NotSent;
    }
    let Some(saved) = saved_in(answer) else {
        return Sending::Sent;
    };
    let departure = port.now();
    if service.departed(arrival.address, saved, departure) {
        Sending::Noted
    } else {
        Sending::NotNoted
    }
}

impl Served {
    // Counts what was done in a turn.
    fn count(&mut self, outcome: &TurnOutcome)
        requires { (self.old.arrivals < 2 ^ 32 - 1) × (self.old.sent < 2 ^ 32 - 1) × (self.old.departed < 2 ^ 32 - 1) }
        ensures { self.new ≡ counted outcome.now self.old }
    {
        let TurnOutcome::Answered { sending, .. } = outcome else {
            return;
        };
        self.arrivals += 1;
        if sending.was_sent() {
            self.sent += 1;
        }
        if sending.was_noted() {
            self.departed += 1;
        }
    }
}

// The receive stamp of a time reply.
fn saved_in(answer: &Answer) -> Option<Stamp>
    ensures { result ≡ saved_in answer.now }
{
    match answer {
        Answer::Time { saved, .. } => Some(*saved),
        _ => None,
    }
}
