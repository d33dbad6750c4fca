//! A header to octets.
ghost use Rattle.std.specs.Prelude.{◌≡◌, ◌+◌, ◌≤◌, ◌++◌, length, take};
ghost use Rattle.ntp_packet.specs.Header.{first_octets, header_length, header_octets};

use crate::{HEADER_OCTETS, Header};

/// The 48 octets of a header.
pub fn write_header(header: &Header) -> [u8; HEADER_OCTETS]
    ensures { result ≡ header_octets header.now }
{
    let mut octets = [0; HEADER_OCTETS];
    put(&mut octets, 0, &first_word(header));
    put(&mut octets, 4, &header.root_delay().0.to_be_bytes());
    put(&mut octets, 8, &header.root_dispersion().0.to_be_bytes());
    put(&mut octets, 12, &header.reference_id());
    put(&mut octets, 16, &header.reference().0.to_be_bytes());
    put(&mut octets, 24, &header.origin().0.to_be_bytes());
    put(&mut octets, 32, &header.receive().0.to_be_bytes());
    put(&mut octets, 40, &header.transmit().0.to_be_bytes());
    octets
}

// The first four octets: leap, version and mode in one, then stratum, poll and precision.
fn first_word(header: &Header) -> [u8; 4]
    ensures { result ≡ first_octets header.now }
{
    let first = header.leap() * 64 + header.version() * 8 + header.mode();
    [
        first,
        header.stratum(),
        header.poll().cast_unsigned(),
        header.precision().cast_unsigned(),
    ]
}

// Puts a part at its place, behind what was put before.
fn put(octets: &mut [u8; HEADER_OCTETS], at: usize, part: &[u8])
    requires { at + length part.now ≤ header_length }
    ensures { take (at + length part.now) octets.new ≡ take at octets.old ++ part.now }
{
    octets[at..at + part.len()].copy_from_slice(part);
}
