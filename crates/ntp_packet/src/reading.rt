//! Octets to a header.
ghost use Rattle.std.specs.Prelude.{◌≡◌, ◌↔◌, ◌+◌, ◌<◌, ◌≤◌, length, take, drop, All, IsNone, IfSome};
ghost use Rattle.std.specs.Int.{w32, w64, to_be_bytes};
ghost use Rattle.ntp_packet.specs.Header.{header_length, header_octets, IsHeader};

use crate::{HEADER_OCTETS, Header, Short, Stamp};

/// Reads a header from the first 48 octets, whatever follows. `None` exactly where there are fewer.
pub fn read_header(octets: &[u8]) -> Option<Header>
    ensures none { IsNone result ↔ (length octets.now < header_length) }
    ensures found { IfSome result (λ header. header_octets header ≡ take header_length octets.now) }
    ensures fields { IfSome result (λ header. IsHeader header) }
{
    if octets.len() < HEADER_OCTETS {
        return None;
    }
    let [first, stratum, poll, precision] = four_at(octets, 0);
    Some(Header::new(
        first / 64,
        first / 8 % 8,
        first % 8,
        stratum,
        poll.cast_signed(),
        precision.cast_signed(),
        short_at(octets, 4),
        short_at(octets, 8),
        four_at(octets, 12),
        stamp_at(octets, 16),
        stamp_at(octets, 24),
        stamp_at(octets, 32),
        stamp_at(octets, 40),
    ))
}

// The short format at a place.
fn short_at(octets: &[u8], at: usize) -> Short
    requires { at + 4 ≤ length octets.now }
    ensures { to_be_bytes w32 result.0 ≡ take 4 (drop at octets.now) }
{
    Short(u32::from_be_bytes(four_at(octets, at)))
}

// The stamp at a place.
fn stamp_at(octets: &[u8], at: usize) -> Stamp
    requires { at + 8 ≤ length octets.now }
    ensures { to_be_bytes w64 result.0 ≡ take 8 (drop at octets.now) }
{
    Stamp(u64::from_be_bytes(eight_at(octets, at)))
}

// The four octets from a place on.
fn four_at(octets: &[u8], at: usize) -> [u8; 4]
    requires { at + 4 ≤ length octets.now }
    ensures part { result ≡ take 4 (drop at octets.now) }
    ensures octets { (length result ≡ 4) × All (λ octet. octet < 256) result }
{
    let part = &octets[at..];
    [part[0], part[1], part[2], part[3]]
}

// The eight octets from a place on.
fn eight_at(octets: &[u8], at: usize) -> [u8; 8]
    requires { at + 8 ≤ length octets.now }
    ensures { result ≡ take 8 (drop at octets.now) }
{
    let part = &octets[at..];
    [
        part[0], part[1], part[2], part[3], part[4], part[5], part[6], part[7],
    ]
}
