//! What a reply is taken for, in the order of the cases.
ghost use Rattle.std.specs.Prelude.{◌≡◌};
ghost use Rattle.ntp_packet.specs.FirstCase.{decided};
ghost use Rattle.ntp_client.specs.Taking.{is_kiss, is_synchronised};
ghost use Rattle.ntp_client.specs.Judging.{packet_steps};

use crate::exchange::Outstanding;
use crate::pairing::{Pairing, is_basic, pairing_of, sample_of};
use crate::query::VERSION;
use crate::state::UNSYNCHRONISED_LEAP;
use crate::{Distrust, Taken};
use ntp_mac::{Key, verifies};
use ntp_packet::{DENY_CODE, Header, Moment, RATE_CODE, Request, Tail};

/// The mode of a packet from a server (RFC 5905, 7.3).
const SERVER_MODE: u8 = 4;

/// The highest stratum of a synchronised clock (RFC 5905, 7.3).
const HIGHEST_STRATUM: u8 = 15;

// What a packet is taken for that arrives at a moment, while a request waits. The first case that applies
// decides. A stamp of 0 is that of unknown time.
pub(crate) fn judge(
    key: &Key,
    number: u16,
    asked: Outstanding,
    reply: &Request<'_>,
    at: Moment,
) -> Taken
    ensures { result ≡ decided (packet_steps key.now number asked reply.now at) }
{
    let header = &reply.header;
    if header.mode() != SERVER_MODE {
        return Taken::Refused(Distrust::Mode);
    }
    if header.version() != VERSION {
        return Taken::Refused(Distrust::Version);
    }
    let Some(pairing) = pairing_of(asked, header.origin()) else {
        return Taken::Refused(Distrust::Origin);
    };
    match reply.tail {
        Tail::Absent if is_kiss(header, DENY_CODE, pairing) => Taken::Deny,
        Tail::Bare(0) if is_basic(pairing) => Taken::Nak,
        Tail::Absent | Tail::Bare(_) => Taken::Refused(Distrust::Unsigned),
        _ if !verifies(key, number, reply) => Taken::Refused(Distrust::Mac),
        _ if is_kiss(header, RATE_CODE, pairing) => Taken::Rate,
        _ if !is_synchronised(header.leap(), header.stratum()) => {
            Taken::Refused(Distrust::Unsynchronised)
        }
        _ if header.receive().0 == 0 || header.transmit().0 == 0 => {
            Taken::Refused(Distrust::Stamps)
        }
        _ => Taken::Sample(sample_of(asked, pairing, header, at)),
    }
}

// Whether a reply is a kiss-o'-death with this code, to the request by its transmit stamp.
fn is_kiss(reply: &Header, code: [u8; 4], pairing: Pairing) -> bool
    ensures { result ≡ is_kiss code reply.now pairing }
{
    reply.stratum() == 0 && reply.reference_id() == code && is_basic(pairing)
}

// Whether a clock of this leap indicator and this stratum is synchronised.
pub(crate) fn is_synchronised(leap: u8, stratum: u8) -> bool
    ensures { result ≡ is_synchronised leap stratum }
{
    leap != UNSYNCHRONISED_LEAP && 1 <= stratum && stratum <= HIGHEST_STRATUM
}
