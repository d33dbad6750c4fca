//! Who asks a server.
ghost use Rattle.std.specs.Prelude.{◌≡◌, false};
ghost use Rattle.ntp_query.specs.Asker.{request_octets, after_request, is_kiss, judged, heard_by};
ghost use Rattle.ntp_query.specs.Outcome.{ends};
ghost use Rattle.ntp_client.specs.Taking.{is_synchronised};

use crate::reference::code_of;
use crate::{Answer, Outcome, hear};
use ntp_client::{Client, Distrust, Outgoing, Sample};
use ntp_mac::Reply;
use ntp_packet::{Header, Moment, Stamp, fresh, read_request};

/// Who asks a server.
#[derive(Debug, Drop)]
pub enum Asker {
    /// A client under a key.
    Signed(Client),
    /// One without a key: the transmit stamp of its last request.
    Unsigned(Stamp),
}

impl Asker {
    /// The request that departs at a moment of the clock: a client's, or a header of 48 octets alone.
    pub(crate) fn request(&mut self, now: Moment) -> Outgoing
        ensures octets { result ≡ request_octets self.old now }
        ensures after { self.new ≡ after_request self.old now }
    {
        match self {
            Asker::Signed(client) => client.request(now),
            Asker::Unsigned(transmit) => {
                *transmit = fresh(now.stamp(), &[]);
                Reply::from_header(&Header::blank(4, 3).with_poll(6).with_transmit(*transmit))
            }
        }
    }

    /// What octets come to that arrive at a moment of the clock. To an unsigned request the time has its transmit stamp as origin,
    /// and comes from a synchronised clock (RFC 5905, 8). Only the header of a reply counts.
    pub(crate) fn hear(&mut self, octets: &[u8], at: Moment) -> Outcome
        ensures outcome { result ≡ heard_by self.old octets.now at }
        ensures waits { ends result ≡ false → self.new ≡ self.old }
    {
        match self {
            Asker::Signed(client) => hear(client, octets, at),
            Asker::Unsigned(transmit) => match read_request(octets) {
                Ok(reply) => judge(*transmit, &reply.header, at),
                Err(fault) => Outcome::Refused(Distrust::Malformed(fault)),
            },
        }
    }
}

// What a reply to an unsigned request comes to. The first case that applies decides.
fn judge(transmit: Stamp, reply: &Header, at: Moment) -> Outcome
    ensures { result ≡ judged transmit reply.now at }
{
    if reply.mode() != 4 {
        Outcome::Refused(Distrust::Mode)
    } else if reply.version() != 4 {
        Outcome::Refused(Distrust::Version)
    } else if reply.origin() != transmit {
        Outcome::Refused(Distrust::Origin)
    } else if is_kiss(reply) {
        Outcome::Kiss(reply.reference_id())
    } else if !is_synchronised(reply.leap(), reply.stratum()) {
        Outcome::Refused(Distrust::Unsynchronised)
    } else if reply.receive().0 == 0 || reply.transmit().0 == 0 {
        Outcome::Refused(Distrust::Stamps)
    } else {
        let sample = Sample {
            t1: transmit,
            t2: reply.receive(),
            t3: reply.transmit(),
            t4: fresh(at.stamp(), &[]),
            interleaved: false,
        };
        Outcome::Answered(Answer::of(sample, false, reply))
    }
}

// Whether a clock of this leap indicator and this stratum is synchronised (RFC 5905, 7.3).
fn is_synchronised(leap: u8, stratum: u8) -> bool
    ensures { result ≡ is_synchronised leap stratum }
{
    leap != 3 && 1 <= stratum && stratum <= 15
}

// Whether a reply is a kiss-o'-death.
fn is_kiss(reply: &Header) -> bool
    ensures { result ≡ is_kiss reply.now }
{
    reply.stratum() == 0 && !code_of(&reply.reference_id()).is_empty()
}
