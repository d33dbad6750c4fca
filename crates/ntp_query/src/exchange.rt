//! A query: one request, and what comes of it.
ghost use Rattle.std.specs.Prelude.{◌≡◌, ◌≤◌, ◌<◌, ℕ, Option, None, List, [], take, OnOk, IfOk, IfSome, IfNone, OnSome};
ghost use Rattle.ntp_query.specs.Exchange.{Incoming, Comes, Sends, outcome_of, IsQuery};

use crate::{Asker, Outcome};
use ntp_packet::{MOST_DATAGRAM_OCTETS, Moment};
use std::io;

/// How many octets of a datagram are taken at most: one more than a packet may have, so that a longer one is still told from the longest
/// packet.
pub const MOST_RECEIVED_OCTETS: usize = MOST_DATAGRAM_OCTETS + 1;

/// Room for a datagram that is received. A longer one is cut.
pub type Room = [u8; MOST_RECEIVED_OCTETS];

/// A datagram that was received.
#[derive(Clone, Copy)]
pub struct Received {
    /// How many octets it has, cut to those of its room.
    pub length: usize,
    /// When it came, by the clock of the link.
    pub at: Moment,
}

/// Where a request goes to and its replies come from, with a time limit for each request and with the clock.
///
/// A link may tell which datagrams come until the time limit, and which requests were sent.
pub trait Link {
    // The datagrams that come until the time limit, where the link tells them.
    ghost coming: { Self → Option (List Incoming) } = { λ _. None };

    // The requests that were sent, where the link tells them.
    ghost sent: { Self → Option (List (List ℕ)) } = { λ _. None };

    // How many datagrams it gives at most until the time limit.
    ghost most: { Self → ℕ };

    /// The moment that the clock shows.
    fn now(&mut self) -> Moment
        ensures coming { coming self.new ≡ coming self.old }
        ensures sent { sent self.new ≡ sent self.old };

    /// Sends a request, and begins its time limit.
    fn send(&mut self, request: &[u8]) -> io::Result<()>
        ensures coming { coming self.new ≡ coming self.old }
        ensures sent { OnOk result (Sends (sent self.old) (sent self.new) request.now) };

    /// Receives the next datagram into the front of `room`, cut to 1,025 octets; nothing where none came until the time limit, or the
    /// link failed.
    fn receive(&mut self, room: &mut Room) -> Option<Received>
        ensures length { IfSome result (λ received. received.length ≤ 1025) }
        ensures came { IfSome result (λ received. Comes (coming self.old) (coming self.new) (take received.length room.new) received.at) }
        ensures over { IfNone result (IfSome (coming self.old) (λ old. old ≡ [])) }
        ensures sent { sent self.new ≡ sent self.old }
        ensures fewer { OnSome result (most self.new < most self.old) };
}

/// Sends one request, and waits for what comes of it. A sample and a signed `RATE` end the query. All else leaves it waiting until
/// its time limit, so that nothing forged takes the place of a signed reply; then the last of that is the outcome, or silence where
/// nothing came.
///
/// # Errors
///
/// The request could not be sent.
pub fn ask<L: Link>(asker: &mut Asker, link: &mut L) -> io::Result<Outcome>
    ensures { IfOk result (λ outcome. IsQuery asker.old (L.sent link.old) (L.sent link.new) (L.coming link.old) outcome) }
{
    let request = asker.request(link.now());
    link.send(request.octets())?;
    Ok(heard_in_time(asker, link))
}

/// Room for a datagram, with zeros.
pub fn empty_room() -> Room {
    [0; MOST_RECEIVED_OCTETS]
}

// What comes of the request that waits.
fn heard_in_time<L: Link>(asker: &mut Asker, link: &mut L) -> Outcome
    ensures outcome { IfSome (L.coming link.old) (λ arrivals. result ≡ outcome_of asker.old arrivals) }
    ensures sent { L.sent link.new ≡ L.sent link.old }
{
    let mut room = empty_room();
    let mut latest = Outcome::Silence;
    while let Some(received) = link.receive(&mut room) {
        latest = asker.hear(&room[..received.length], received.at);
        if latest.ends() {
            return latest;
        }
    }
    latest
}
