//! Which exchange a reply belongs to.
ghost use Rattle.std.specs.Prelude.{◌≡◌};
ghost use Rattle.ntp_client.specs.Pairing.{pairing_of, is_basic, exchange_of, sample_of};

use crate::Sample;
use crate::exchange::{Exchange, Outstanding};
use ntp_packet::{Header, Moment, Stamp, fresh};

/// The exchange that a reply tells of.
#[derive(Clone, Copy, Debug, PartialEq, Eq)]
pub enum Pairing {
    /// The request and the reply itself (RFC 5905, 8).
    Basic,
    /// The exchange that the request carries (RFC 9769, 2).
    Interleaved(Exchange),
}

// The exchange that a reply to a request with this origin stamp tells of. `None` where it is no reply to
// that request.
pub(crate) fn pairing_of(asked: Outstanding, origin: Stamp) -> Option<Pairing>
    ensures { result ≡ pairing_of asked origin }
{
    if origin == asked.transmit {
        return Some(Pairing::Basic);
    }
    let earlier = asked.earlier?;
    (origin == earlier.arrival).then_some(Pairing::Interleaved(earlier))
}

// Whether a reply tells of the request and itself.
pub(crate) fn is_basic(pairing: Pairing) -> bool
    ensures { result ≡ is_basic pairing }
{
    matches!(pairing, Pairing::Basic)
}

// The exchange of a request with the reply that arrived at a moment.
pub(crate) fn exchange_of(asked: Outstanding, reply: &Header, at: Moment) -> Exchange
    ensures { result ≡ exchange_of asked reply.now at }
{
    Exchange {
        transmit: asked.transmit,
        receive: reply.receive(),
        arrival: fresh(at.stamp(), &[]),
    }
}

// The four stamps that a reply tells, which arrived at a moment.
pub(crate) fn sample_of(asked: Outstanding, pairing: Pairing, reply: &Header, at: Moment) -> Sample
    ensures { result ≡ sample_of asked pairing reply.now at }
{
    match pairing {
        Pairing::Basic => Sample {
            t1: asked.transmit,
            t2: reply.receive(),
            t3: reply.transmit(),
            t4: fresh(at.stamp(), &[]),
            interleaved: false,
        },
        Pairing::Interleaved(earlier) => Sample {
            t1: earlier.transmit,
            t2: earlier.receive,
            t3: reply.transmit(),
            t4: earlier.arrival,
            interleaved: true,
        },
    }
}
