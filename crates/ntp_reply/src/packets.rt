//! The headers of the replies, field by field.
ghost use Rattle.std.specs.Prelude.{◌≡◌, ◌≤◌};
ghost use Rattle.ntp_reply.specs.Replies.{reply_fields, basic_fields, time_fields, kiss_fields, kiss_code, kiss_transmit, shown};

use crate::occasion::{NewStamps, Occasion};
use crate::{Kiss, Reference};
use ntp_customer::Slot;
use ntp_packet::{ClockFields, DENY_CODE, Header, RATE_CODE, Stamp};

/// The mode of a packet from a server (RFC 5905, 7.3).
const SERVER_MODE: u8 = 4;

/// The leap indicator of an unsynchronised clock (RFC 5905, 7.3).
const UNSYNCHRONISED_LEAP: u8 = 3;

/// The stratum of an unsynchronised clock, which a packet shows as 0 (RFC 5905, 7.3).
const UNSYNCHRONISED_STRATUM: u8 = 16;

/// The header of a basic time reply, and of a crypto-NAK: its origin is the request's transmit stamp (RFC 5905, 9.2).
pub fn basic_fields(occasion: &Occasion, request: &Header, stamps: NewStamps) -> Header
    ensures { result ≡ basic_fields occasion.now request.now stamps }
{
    reply_fields(
        &occasion.reference,
        request,
        request.transmit(),
        stamps.receive,
        stamps.transmit,
    )
}

/// The header of a time reply: where an exchange was matched it is interleaved, with the request's receive stamp as its origin
/// and the exchange's transmit stamp (profile, after RFC 9769); else it is basic.
pub fn time_fields(
    occasion: &Occasion,
    request: &Header,
    matched: Option<Slot>,
    stamps: NewStamps,
) -> Header
    ensures { result ≡ time_fields occasion.now request.now matched stamps }
{
    match matched {
        None => basic_fields(occasion, request, stamps),
        Some(exchange) => reply_fields(
            &occasion.reference,
            request,
            request.receive(),
            stamps.receive,
            exchange.transmit,
        ),
    }
}

// The header of a reply that tells the time, with these three stamps.
fn reply_fields(
    reference: &Reference,
    request: &Header,
    origin: Stamp,
    receive: Stamp,
    transmit: Stamp,
) -> Header
    ensures { result ≡ reply_fields reference.now request.now origin receive transmit }
{
    Header::blank(request.version(), SERVER_MODE)
        .with_poll(request.poll())
        .with_clock(shown(reference))
        .with_origin(origin)
        .with_receive(receive)
        .with_transmit(transmit)
}

// A state as a packet tells it: an unsynchronised clock shows stratum 0, and no reference identifier, since a client
// would read it as a kiss code.
fn shown(reference: &Reference) -> ClockFields
    ensures value { result ≡ shown reference.now }
    ensures leap_fits { result.leap ≤ 3 }
{
    let fields = reference.fields();
    if fields.stratum != UNSYNCHRONISED_STRATUM {
        return fields;
    }
    ClockFields {
        stratum: 0,
        reference_id: [0; 4],
        ..fields
    }
}

/// The header of a kiss-o'-death (RFC 5905, 7.4).
pub fn kiss_fields(kiss: Kiss, request: &Header) -> Header
    ensures { result ≡ kiss_fields kiss request.now }
{
    let origin = request.transmit();
    Header::blank(request.version(), SERVER_MODE)
        .with_leap(UNSYNCHRONISED_LEAP)
        .with_poll(request.poll())
        .with_reference_id(kiss_code(kiss))
        .with_origin(origin)
        .with_transmit(kiss_transmit(origin))
}

// The kiss code (RFC 5905, 7.4).
fn kiss_code(kiss: Kiss) -> [u8; 4]
    ensures { result ≡ kiss_code kiss }
{
    match kiss {
        Kiss::Rate => RATE_CODE,
        Kiss::Deny => DENY_CODE,
    }
}

// The transmit stamp of a kiss: the request's, but never that of unknown time.
fn kiss_transmit(transmit: Stamp) -> Stamp
    ensures { result ≡ kiss_transmit transmit }
{
    if transmit.0 == 0 { Stamp(1) } else { transmit }
}
