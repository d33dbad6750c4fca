//! What a digest algorithm gives.
ghost use Rattle.std.specs.Prelude.{◌≡◌};
ghost use Rattle.ntp_packet.specs.Tail.{digest_octets};

/// A digest: 16 octets of MD5 (RFC 1321) or 20 of SHA-1 (FIPS 180-4).
#[derive(Clone, Copy, Debug, PartialEq, Eq)]
pub enum Digest {
    /// The digest of MD5.
    Md5([u8; 16]),
    /// The digest of SHA-1.
    Sha1([u8; 20]),
}

impl Digest {
    /// The octets of the digest.
    pub fn octets(&self) -> &[u8]
        ensures { result.now ≡ digest_octets self.now }
    {
        match self {
            Digest::Md5(octets) => octets,
            Digest::Sha1(octets) => octets,
        }
    }
}
