//! Octets to their digest under a key.
ghost use Rattle.std.specs.Prelude.{◌≡◌, ◌++◌};
ghost use Rattle.md5.specs.Md5.{md5};
ghost use Rattle.sha1.specs.Sha1.{sha1};
ghost use Rattle.ntp_mac.specs.Digest.{digest_of};

use crate::{Algorithm, Digest, Key};
use md5::{Digest as _, Md5};
use sha1::Sha1;

/// The digest of octets under a key: the hash, by the key's algorithm, of the key's octets followed by
/// them (RFC 5905, 7.3; with SHA-1: profile).
pub fn digest(key: &Key, octets: &[u8]) -> Digest
    ensures { result ≡ digest_of key.now octets.now }
{
    match key.algorithm() {
        Algorithm::Md5 => Digest::Md5(md5_of_two(key.octets(), octets)),
        Algorithm::Sha1 => Digest::Sha1(sha1_of_two(key.octets(), octets)),
    }
}

// The MD5 digest of two parts, one behind the other.
pub(crate) fn md5_of_two(first: &[u8], second: &[u8]) -> [u8; 16]
    ensures { result ≡ md5 (first.now ++ second.now) }
{
    let mut hasher = Md5::new();
    hasher.update(first);
    hasher.update(second);
    hasher.finalize()
}

// The SHA-1 digest of two parts, one behind the other.
pub(crate) fn sha1_of_two(first: &[u8], second: &[u8]) -> [u8; 20]
    ensures { result ≡ sha1 (first.now ++ second.now) }
{
    let mut hasher = Sha1::new();
    hasher.update(first);
    hasher.update(second);
    hasher.finalize()
}
