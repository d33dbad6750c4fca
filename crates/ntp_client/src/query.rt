//! The request of a client.
ghost use Rattle.std.specs.Prelude.{◌≡◌};
ghost use Rattle.ntp_client.specs.Query.{transmit_of, query_fields};

use crate::exchange::{Exchange, Outstanding};
use ntp_packet::{Header, Moment, Stamp, fresh};

/// The version of NTP (RFC 5905, 7.3).
pub(crate) const VERSION: u8 = 4;

/// The mode of a packet from a client (RFC 5905, 7.3).
const CLIENT_MODE: u8 = 3;

/// The poll interval that a request tells: 2^6 seconds (profile).
const POLL: i8 = 6;

// The header of a request. Its origin and receive stamps are those of the exchange that it carries, or none.
pub(crate) fn query_header(asked: Outstanding) -> Header
    ensures { result ≡ query_fields asked }
{
    Header::blank(VERSION, CLIENT_MODE)
        .with_poll(POLL)
        .with_origin(asked.earlier.map_or(Stamp(0), |exchange| exchange.receive))
        .with_receive(asked.earlier.map_or(Stamp(0), |exchange| exchange.arrival))
        .with_transmit(asked.transmit)
}

// The transmit stamp of a request that carries an exchange, or none.
pub(crate) fn transmit_of(earlier: Option<Exchange>, now: Moment) -> Stamp
    ensures { result ≡ transmit_of earlier now }
{
    match earlier {
        Some(exchange) => fresh(now.stamp(), &[exchange.arrival]),
        None => fresh(now.stamp(), &[]),
    }
}
