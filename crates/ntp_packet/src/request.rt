//! A request, as its parts.

use crate::{Fields, Header, Tail};
use std::marker::Model;

/// How many octets a datagram has at most (profile).
pub const MOST_DATAGRAM_OCTETS: usize = 1024;

/// A packet of 48 to 1,024 octets, as its parts, which are lent from the datagram. Only `read_request`
/// makes one: no other crate can write out a `#[non_exhaustive]` struct. Its fields can be read and
/// written, but whoever writes one has to prove that the parts are again those of a packet
/// (`IsReading`). So each `Request` is a packet: the one that came, or one that its holder made of it.
#[derive(Debug, Drop)]
#[non_exhaustive]
pub struct Request<'a> {
    /// The header: the first 48 octets.
    pub header: Header,
    /// The extension fields behind the header.
    pub fields: Fields<'a>,
    /// The octets that a digest covers: header and fields, as they stand.
    pub signed: &'a [u8],
    /// What follows the fields.
    pub tail: Tail<'a>,
}

impl<'a> Model for Request<'a> {
    ghost use Rattle.ntp_packet.specs.{Request.RequestValue, Request.IsReading, Tail.tail_value};

    ghost Value = { RequestValue };

    ghost view = { λ r. record { header = r.header; fields = r.fields; signed = r.signed.now; tail = tail_value r.tail } };

    ghost invariant = { λ r. IsReading (record { header = r.header; fields = r.fields; signed = r.signed.now; tail = tail_value r.tail }) };
}
