//! Whether a request is signed.
ghost use Rattle.std.specs.Prelude.{◌≡◌, ◌↔◌, IsTrue, nat_eq};
ghost use Rattle.std.specs.Cmp.Lexicographic.{pointwise};
ghost use Rattle.ntp_mac.specs.Digest.{digest_of};
ghost use Rattle.ntp_packet.specs.Tail.{tail_value};
ghost use Rattle.ntp_mac.specs.Signed.{IsSigned, is_mac, is_signed};

use crate::hashing::{md5_of_two, sha1_of_two};
use crate::{Algorithm, Key};
use ntp_packet::{Request, Tail};

/// Whether a request is signed under a key with this key number: its tail is of the key's algorithm and has
/// the number, and its digest is that of the header and the fields under the key (RFC 5905, 7.3; with
/// SHA-1: profile). The whole digest is compared. None is computed where algorithm or number differ.
pub fn verifies(key: &Key, number: u16, request: &Request<'_>) -> bool
    ensures signed { IsTrue result ↔ IsSigned key.now number request.now }
    ensures test { result ≡ is_signed key.now number request.now }
{
    is_mac(request.tail, key, number, request.signed)
}

// Whether a tail has the number and the whole digest of a MAC of octets under a key.
fn is_mac(tail: Tail<'_>, key: &Key, number: u16, signed: &[u8]) -> bool
    ensures { result ≡ is_mac (tail_value tail.entry) number (digest_of key.now signed.now) }
{
    let key_number = u32::from(number);
    match (tail, key.algorithm()) {
        (Tail::Md5 { number, digest }, Algorithm::Md5) => {
            number == key_number && digest == md5_of_two(key.octets(), signed).as_slice()
        }
        (Tail::Sha1 { number, digest }, Algorithm::Sha1) => {
            number == key_number && digest == sha1_of_two(key.octets(), signed).as_slice()
        }
        _ => false,
    }
}
