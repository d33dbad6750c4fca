//! What came of a query, and of several the sample of least delay.
ghost use Rattle.std.specs.Prelude.{◌≡◌, ◌≤ℤ◌, ◌⊎◌, false, Some, Contains, IfSome, IsNone};
ghost use Rattle.ntp_client.specs.{Sample.delay, Taking.taken_for, Taking.after_taken};
ghost use Rattle.ntp_query.specs.Outcome.{heard, answer_in, ends, or_unreachable};

use crate::Answer;
use ntp_client::{Client, Distrust, Taken, TakenPacket};
use ntp_packet::Moment;

/// What came of a query.
#[derive(Clone, Copy, Debug, PartialEq, Eq)]
pub enum Outcome {
    /// An authentic time reply.
    Answered(Answer),
    /// An authentic kiss `RATE`: the server is asked too often.
    Rate,
    /// The kiss `DENY`, which is not authentic.
    Deny,
    /// A crypto-NAK, which is not authentic.
    Nak,
    /// A kiss with this code (RFC 5905, 7.4) to an unsigned request.
    Kiss([u8; 4]),
    /// Octets that were not taken for a reply, and why.
    Refused(Distrust),
    /// Nothing.
    Silence,
    /// Nothing but what the network said of the server, which is not authentic.
    Unreachable(Unreached),
}

/// Why a server is not reached, as the network says (ICMP; RFC 792).
#[derive(Clone, Copy, Debug, PartialEq, Eq)]
pub enum Unreached {
    /// Nobody listens at its port.
    Port,
    /// Its datagram was not delivered for another reason.
    Network,
}

/// What a client takes octets for that arrive at a moment of its clock, and for a sample what their header tells.
pub fn hear(client: &mut Client, octets: &[u8], at: Moment) -> Outcome
    ensures outcome { result ≡ heard client.old octets.now at }
    ensures waits { ends result ≡ false → client.new ≡ client.old }
    ensures after { client.new ≡ after_taken client.old octets.now at (taken_for client.old octets.now at) }
{
    let TakenPacket { taken, header } = client.take_packet(octets, at);
    match taken {
        Taken::Sample(sample) => Outcome::Answered(Answer::of(sample, true, &header.unwrap())),
        Taken::Rate => Outcome::Rate,
        Taken::Deny => Outcome::Deny,
        Taken::Nak => Outcome::Nak,
        Taken::Refused(why) => Outcome::Refused(why),
    }
}

impl Outcome {
    /// The sample and what it was told with, if this is one.
    pub fn answer(&self) -> Option<Answer>
        ensures { result ≡ answer_in self.now }
    {
        match self {
            Outcome::Answered(answer) => Some(*answer),
            _ => None,
        }
    }

    /// What the network said of the server in the place of silence; otherwise the outcome as it is.
    pub fn or_unreachable(self, said: Option<Unreached>) -> Outcome
        ensures { result ≡ or_unreachable self said }
    {
        match (self, said) {
            (Outcome::Silence, Some(why)) => Outcome::Unreachable(why),
            _ => self,
        }
    }

    // Whether it ends the query: a sample and a signed RATE do.
    pub(crate) fn ends(&self) -> bool
        ensures { result ≡ ends self.now }
    {
        matches!(self, Outcome::Answered(_) | Outcome::Rate)
    }
}

/// Of the samples that some queries gave one of least delay, which tells the offset best (RFC 5905, 10); nothing where none gave a
/// sample.
pub fn least_delay(outcomes: &[Outcome]) -> Option<Answer>
    ensures given { IfSome result (λ answer. Contains outcomes.now (Outcome.Answered answer)) }
    ensures least { IfSome result (λ answer. (other : Answer) → Contains outcomes.now (Outcome.Answered other)
        → delay answer.sample ≤ℤ delay other.sample) }
    ensures none { IsNone result → (answer : Answer) → ¬ Contains outcomes.now (Outcome.Answered answer) }
{
    let mut least: Option<Answer> = None;
    for outcome in outcomes {
        match outcome.answer() {
            Some(answer) => least = Some(quicker(least, answer)),
            None => {}
        }
    }
    least
}

// One of no more delay than the other.
fn quicker(least: Option<Answer>, next: Answer) -> Answer
    ensures given { (result ≡ next) ⊎ (least ≡ Some result) }
    ensures next { delay result.sample ≤ℤ delay next.sample }
    ensures least { IfSome least (λ other. delay result.sample ≤ℤ delay other.sample) }
{
    match least {
        Some(least) if least.sample.delay() <= next.sample.delay() => least,
        _ => next,
    }
}
