//! Reference identifiers in words.
ghost use Rattle.std.specs.Prelude.{◌≡◌, ◌<◌, ◌≤◌, length, IfSome};
ghost use Rattle.std.specs.{Char.is_ascii_graphic, List.list_all, List.position};
ghost use Rattle.ntp_query.specs.Reference.{is_zero, text_length, code_of};

use std::net::Ipv4Addr;
use std::{fmt, str};

/// The reference of a clock of a stratum. It prints as text up to stratum 1, as `GPS`, or in eight hexadecimal digits where it
/// is no text; and as an address above stratum 1 (RFC 5905, 7.3).
#[derive(Clone, Copy)]
pub struct Reference {
    /// The stratum.
    pub stratum: u8,
    /// The reference identifier.
    pub identifier: [u8; 4],
}

impl fmt::Display for Reference {
    fn fmt<W: fmt::Write>(&self, f: &mut fmt::Formatter<W>) -> fmt::Result {
        if self.stratum > 1 {
            return write!(f, "{}", Ipv4Addr::from(self.identifier));
        }
        match code_of(&self.identifier) {
            [] => write!(f, "{:08x}", u32::from_be_bytes(self.identifier)),
            code => f.write_str(str::from_utf8(code).map_err(|_| fmt::Error)?),
        }
    }
}

// The printable text of an identifier, in front of the zeros that fill it up; empty where it is none.
pub(crate) fn code_of(identifier: &[u8; 4]) -> &[u8]
    ensures { result.now ≡ code_of identifier.now }
{
    let (text, fill) = identifier.split_at(text_length(identifier));
    let is_code = are_printable(text) && are_zeros(fill);
    if is_code { text } else { &[] }
}

// How many octets stand in front of the first 0.
#[tactic(auto, unfolding(crate::specs::Reference::text_length))]
fn text_length(octets: &[u8]) -> usize
    ensures value { result ≡ text_length octets.now }
    ensures most { result ≤ length octets.now }
{
    first_zero(octets).unwrap_or(octets.len())
}

// The place of the first 0.
fn first_zero(octets: &[u8]) -> Option<usize>
    ensures place { result ≡ position is_zero octets.now }
    ensures within { IfSome result (λ place. place < length octets.now) }
{
    octets.iter().position(|octet| *octet == 0)
}

// Whether octets are printable.
fn are_printable(octets: &[u8]) -> bool
    ensures { result ≡ list_all is_ascii_graphic octets.now }
{
    octets.iter().all(|octet| octet.is_ascii_graphic())
}

// Whether octets are zeros.
fn are_zeros(octets: &[u8]) -> bool
    ensures { result ≡ list_all is_zero octets.now }
{
    octets.iter().all(|octet| *octet == 0)
}
