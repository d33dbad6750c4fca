//! A client, with its request and what it takes for a reply.
ghost use Rattle.std.specs.Prelude.{◌≡◌, ◌↔◌, ◌<◌, List, ℕ, Some, None, Ok};
ghost use Rattle.ntp_packet.specs.FirstCase.{decided};
ghost use Rattle.ntp_mac.specs.Reading.{reading_of};
ghost use Rattle.ntp_client.specs.{State.new_client, State.IsClient, Sample.IsSample, Judging.packet_steps};
ghost use Rattle.ntp_client.specs.Query.{query_octets, next_query, after_query};
ghost use Rattle.ntp_client.specs.Taking.{taken_for, header_taken, after_taken};

use crate::exchange::{Exchange, Outstanding};
use crate::judging::judge;
use crate::pairing::exchange_of;
use crate::query::{query_header, transmit_of};
use crate::{Distrust, Sample, Taken, TakenPacket};
use ntp_mac::{Key, Reply, seal};
use ntp_packet::{Moment, Request, read_request};
use std::marker::Model;

/// A request, ready to be sent: a header and its MAC, of 68 or 72 octets.
pub type Outgoing = Reply;

/// A client of one server, with which it shares a key. Contracts see what it knows: the key, the request
/// that waits for its reply, and the exchange that the next request carries.
#[derive(Debug, Drop)]
pub struct Client {
    key: Key,
    number: u16,
    outstanding: Option<Outstanding>,
    sampled: Option<Exchange>,
}

impl Model for Client {
    ghost use Rattle.ntp_client.specs.State.{ClientState, IsClient};

    ghost Value = { ClientState };

    ghost view = { λ c. record { key = c.key; number = c.number; outstanding = c.outstanding; sampled = c.sampled } };

    ghost invariant = { λ c. IsClient (record { key = c.key; number = c.number; outstanding = c.outstanding; sampled = c.sampled }) };
}

impl Client {
    /// A client with a key and the key's number, 1 to 65,535, that has asked nothing.
    pub fn new(key: Key, number: u16) -> Client
        requires number_given { 0 < number }
        ensures value { result ≡ new_client key number }
        ensures client { IsClient result }
    {
        Client {
            key,
            number,
            outstanding: None,
            sampled: None,
        }
    }

    /// The request that departs at a moment of the client's clock. It takes the place of one that still
    /// waits for its reply. Where the last request gave a sample, it asks for the departure stamp of that
    /// exchange's reply (RFC 9769, 2; profile).
    #[must_use]
    pub fn request(&mut self, now: Moment) -> Outgoing
        ensures octets { result ≡ query_octets self.old.key self.old.number (next_query self.old now) }
        ensures after { self.new ≡ after_query self.old now }
        ensures client { IsClient self.new }
    {
        let asked = Outstanding {
            transmit: transmit_of(self.sampled, now),
            earlier: self.sampled,
        };
        self.outstanding = Some(asked);
        self.sampled = None;
        let mut outgoing = Reply::from_header(&query_header(asked));
        seal(&self.key, self.number, &mut outgoing);
        outgoing
    }

    /// What octets are taken for that arrive at a moment of the client's clock. The first case that
    /// applies decides (profile):
    ///
    /// 1. no request waits; the octets are no packet; the mode or the version is not 4; the origin stamp
    ///    is none of the request's: refused;
    /// 2. without a MAC: the kiss `DENY`, a crypto-NAK, or refused;
    /// 3. the MAC is not that of the key: refused;
    /// 4. the kiss `RATE`; an unsynchronised clock or a stamp of unknown time: refused;
    /// 5. otherwise a sample.
    ///
    /// A sample and a `RATE` end the request. All else leaves the client as it is. So a sample comes exactly from an
    /// authentic reply of a synchronised clock to the request that waits (RFC 5905, 8; RFC 9769, 2).
    #[must_use]
    pub fn take(&mut self, octets: &[u8], at: Moment) -> Taken
        ensures first { result ≡ taken_for self.old octets.now at }
        ensures sample { (sample : Sample) → (result ≡ Taken.Sample sample) ↔ IsSample self.old octets.now at sample }
        ensures after { self.new ≡ after_taken self.old octets.now at result }
        ensures client { IsClient self.new }
    {
        self.take_packet(octets, at).taken
    }

    /// Takes octets as `take` does, and hands on the header that it judged.
    #[must_use]
    pub fn take_packet(&mut self, octets: &[u8], at: Moment) -> TakenPacket
        ensures first { result.taken ≡ taken_for self.old octets.now at }
        ensures header { result.header ≡ header_taken self.old octets.now }
        ensures sample { (sample : Sample) → (result.taken ≡ Taken.Sample sample) ↔ IsSample self.old octets.now at sample }
        ensures after { self.new ≡ after_taken self.old octets.now at result.taken }
        ensures client { IsClient self.new }
    {
        let Some(asked) = self.outstanding else {
            return unread(Distrust::NothingAsked);
        };
        match read_request(octets) {
            Ok(reply) => TakenPacket {
                taken: self.take_reply(asked, &reply, at),
                header: Some(reply.header),
            },
            Err(fault) => unread(Distrust::Malformed(fault)),
        }
    }

    // What a packet is taken for that arrives at a moment.
    fn take_reply(&mut self, asked: Outstanding, reply: &Request<'_>, at: Moment) -> Taken
        requires { self.old.outstanding ≡ Some asked }
        ensures first { result ≡ decided (packet_steps self.old.key self.old.number asked reply.now at) }
        ensures after { (octets : List ℕ) → reading_of octets ≡ Ok reply.now → self.new ≡ after_taken self.old octets at result }
        ensures client { IsClient self.new }
    {
        let taken = judge(&self.key, self.number, asked, reply, at);
        match taken {
            Taken::Sample(_) => {
                self.outstanding = None;
                self.sampled = Some(exchange_of(asked, &reply.header, at));
            }
            Taken::Rate => self.outstanding = None,
            Taken::Deny | Taken::Nak | Taken::Refused(_) => {}
        }
        taken
    }
}

// What octets are taken for before a header of theirs is judged: refused.
fn unread(why: Distrust) -> TakenPacket
    ensures taken { result.taken ≡ Taken.Refused why }
    ensures header { result.header ≡ None }
{
    TakenPacket {
        taken: Taken::Refused(why),
        header: None,
    }
}
