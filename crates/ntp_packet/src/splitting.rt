//! A datagram to a request.
ghost use Rattle.std.specs.Prelude.{◌≡◌, ◌≢◌, ℕ, ◌+◌, ◌%◌, ◌<◌, ◌≤◌, List, length, take, drop, IfOk, IfErr, IfSome, IfNone};
ghost use Rattle.std.specs.Int.{w32, to_be_bytes};
ghost use Rattle.ntp_packet.specs.{Header.header_length, Field.written_length as length_of, Faults.Stands, Faults.Fails};
ghost use Rattle.ntp_packet.specs.Request.{most_datagram_octets, RequestValue, IsRequest};
ghost use Rattle.ntp_packet.specs.Tail.{most_tail_octets, tail_octets, tail_value, IsTail};

use crate::fields::written_length;
use crate::{Fields, HEADER_OCTETS, MOST_DATAGRAM_OCTETS, Malformed, Request, Tail, read_header};

/// How many octets a tail has at most: a key number and a digest of SHA-1 (profile).
const MOST_TAIL_OCTETS: usize = 24;

/// How many octets a field has at least (RFC 7822, 3).
const LEAST_FIELD_OCTETS: u16 = 16;

/// Splits a datagram into its parts, which are lent from it: a header of 48 octets (RFC 5905, 7.3), then
/// extension fields (RFC 7822, 3), then a tail of 0, 4, 20 or 24 octets. While more than 24 octets remain
/// behind the header, a field stands there; what remains then is the tail (profile). The kinds and values
/// of the fields are not looked at. `Err` has the one fault of a datagram that cannot be split so.
#[tactic(auto, using(crate::proofs::Unique::unique, crate::proofs::Found::place_behind))]
pub fn read_request(octets: &[u8]) -> Result<Request<'_>, Malformed>
    ensures found { IfOk result (λ request. IsRequest octets.now request) }
    ensures fault { IfErr result (λ fault. Fails octets.now fault) }
    ensures only { (request : RequestValue) → IsRequest octets.now request → result ≡ Ok request }
    ensures exact { (fault : Malformed) → Fails octets.now fault → result ≡ Err fault }
{
    if octets.len() > MOST_DATAGRAM_OCTETS {
        return Err(Malformed::Long);
    }
    let Some(header) = read_header(octets) else {
        return Err(Malformed::Short);
    };
    let at = tail_place(octets)?;
    let (signed, rest) = octets.split_at(usize::from(at));
    let Some(tail) = read_tail(rest) else {
        return Err(Malformed::Rest { at });
    };
    let fields = Fields::new(&signed[HEADER_OCTETS..]);
    Ok(Request {
        header,
        fields,
        signed,
        tail,
    })
}

// The place of the tail: the first from which at most 24 octets remain, going from field to field.
#[tactic(auto, using(std::proofs::lemmas::List::take_rest, crate::proofs::Places::Stands_on))]
fn tail_place(octets: &[u8]) -> Result<u16, Malformed>
    requires most { length octets.now ≤ most_datagram_octets }
    requires header { Stands octets.now header_length (drop header_length octets.now) }
    ensures found { IfOk result (λ at. Stands octets.now at (drop at octets.now)) }
    ensures last { IfOk result (λ at. length octets.now ≤ at + most_tail_octets) }
    ensures within { IfOk result (λ at. at ≤ length octets.now) }
    ensures fault { IfErr result (λ fault. Fails octets.now fault) }
{
    let mut at = HEADER_OCTETS as u16;
    while octets.len() - usize::from(at) > MOST_TAIL_OCTETS {
        at += field_length(&octets[usize::from(at)..], at)?;
    }
    Ok(at)
}

// The length of the field at the front of what remains of a datagram from a place on.
fn field_length(rest: &[u8], at: u16) -> Result<u16, Malformed>
    requires { most_tail_octets < length rest.now }
    ensures written { IfOk result (λ n. n ≡ length_of rest.now) }
    ensures least { IfOk result (λ n. 16 ≤ n) }
    ensures aligned { IfOk result (λ n. n % 4 ≡ 0) }
    ensures whole { IfOk result (λ n. n ≤ length rest.now) }
    ensures fault { IfErr result (λ fault. (octets : List ℕ) → length octets ≤ most_datagram_octets
        → Stands octets at rest.now → Fails octets fault) }
{
    let length = written_length(rest);
    if length < LEAST_FIELD_OCTETS {
        Err(Malformed::FieldShort { at })
    } else if length % 4 != 0 {
        Err(Malformed::FieldUnaligned { at })
    } else if usize::from(length) > rest.len() {
        Err(Malformed::FieldPastEnd { at })
    } else {
        Ok(length)
    }
}

// Reads a tail, of 0, 4, 20 or 24 octets. `None` exactly where no tail has as many.
#[tactic(auto, using(crate::proofs::Tails::tails), unfolding(crate::specs::Tail::tail_octets))]
fn read_tail(octets: &[u8]) -> Option<Tail<'_>>
    ensures found { IfSome result (λ tail. tail_octets (tail_value tail) ≡ octets.now) }
    ensures tail { IfSome result (λ tail. IsTail (tail_value tail)) }
    ensures none { IfNone result ((length octets.now ≢ 0) × (length octets.now ≢ 4)
        × (length octets.now ≢ 20) × (length octets.now ≢ 24)) }
{
    match octets.len() {
        0 => Some(Tail::Absent),
        4 => Some(Tail::Bare(key_number(octets))),
        20 => Some(Tail::Md5 {
            number: key_number(octets),
            digest: &octets[4..],
        }),
        24 => Some(Tail::Sha1 {
            number: key_number(octets),
            digest: &octets[4..],
        }),
        _ => None,
    }
}

// The key number at the front of a tail.
fn key_number(tail: &[u8]) -> u32
    requires { 4 ≤ length tail.now }
    ensures { to_be_bytes w32 result ≡ take 4 tail.now }
{
    u32::from_be_bytes([tail[0], tail[1], tail[2], tail[3]])
}
