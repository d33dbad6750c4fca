//! The tail of a packet: what may show who sent it.

/// What follows the header and the fields of a packet. Key numbers have 32 bits; a digest is lent from
/// the datagram.
#[derive(Clone, Copy, Debug, PartialEq, Eq)]
pub enum Tail<'a> {
    /// Nothing: the packet has no MAC.
    Absent,
    /// A key number alone, as in a crypto-NAK (RFC 5905): 4 octets.
    Bare(u32),
    /// A key number and a digest of 16 octets, by MD5 (RFC 5905, 7.3; RFC 1321): 20 octets.
    Md5 { number: u32, digest: &'a [u8] },
    /// A key number and a digest of 20 octets, by SHA-1 (profile; FIPS 180-4): 24 octets.
    Sha1 { number: u32, digest: &'a [u8] },
}
