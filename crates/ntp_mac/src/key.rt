//! Symmetric keys.
ghost use Rattle.std.specs.Prelude.{◌≡◌, ◌↔◌, ◌<◌, ◌≤◌, length, IsOk, IfOk};
ghost use Rattle.ntp_mac.specs.Key.{most_key_octets};

use std::fmt;
use std::marker::Model;

/// How many octets a key has at most (profile).
pub const MOST_KEY_OCTETS: usize = 32;

/// The algorithm of a digest.
#[derive(Clone, Copy, Debug, PartialEq, Eq)]
pub enum Algorithm {
    /// MD5 (RFC 1321), as RFC 5905, 7.3 has it.
    Md5,
    /// SHA-1 (FIPS 180-4), in the form of the MD5 one (profile).
    Sha1,
}

/// Why octets are no key.
#[derive(Clone, Copy, Debug, PartialEq, Eq)]
pub enum KeyFault {
    /// There are none.
    Empty,
    /// There are more than 32.
    TooLong,
}

/// A symmetric key: 1 to 32 octets and the algorithm that they are for. It is held in place, and is
/// copied without memory. It is a secret: nothing here prints its octets.
#[derive(Clone, Copy, PartialEq, Eq)]
pub struct Key {
    algorithm: Algorithm,
    // How many octets the key has.
    len: usize,
    // Its octets, and zeros behind them.
    padded: [u8; MOST_KEY_OCTETS],
}

impl Model for Key {
    ghost use Rattle.std.specs.Prelude.{◌≡◌, ◌-◌, ◌≤◌, ◌++◌, length, take, replicate};
    ghost use Rattle.ntp_mac.specs.Key.{most_key_octets, SymmetricKey};

    ghost Value = { SymmetricKey };

    ghost view = { λ k. record { algorithm = k.algorithm; octets = take k.len k.padded } };

    ghost invariant = { λ k. (1 ≤ k.len) × (k.len ≤ most_key_octets)
        × (k.padded ≡ take k.len k.padded ++ replicate (most_key_octets - k.len) 0) × (length k.padded ≡ most_key_octets) };

    ghost inverse = { λ k. record {
      algorithm = k.algorithm;
      len = length k.octets;
      padded = k.octets ++ replicate (most_key_octets - length k.octets) 0;
    } };
}

impl Key {
    /// A key of 1 to 32 octets (profile).
    pub fn new(algorithm: Algorithm, octets: &[u8]) -> Result<Key, KeyFault>
        ensures accepted { IsOk result ↔ ((1 ≤ length octets.now) × (length octets.now ≤ most_key_octets)) }
        ensures key { IfOk result (λ key. key ≡ record { algorithm = algorithm; octets = octets.now }) }
        ensures empty { (result ≡ Err KeyFault.Empty) ↔ (length octets.now ≡ 0) }
        ensures too_long { (result ≡ Err KeyFault.TooLong) ↔ (most_key_octets < length octets.now) }
    {
        if octets.is_empty() {
            return Err(KeyFault::Empty);
        }
        if octets.len() > MOST_KEY_OCTETS {
            return Err(KeyFault::TooLong);
        }
        let len = octets.len();
        let mut padded = [0; MOST_KEY_OCTETS];
        padded[..len].copy_from_slice(octets);
        Ok(Key {
            algorithm,
            len,
            padded,
        })
    }

    /// The algorithm that the key is for.
    pub fn algorithm(&self) -> Algorithm
        ensures { result ≡ self.now.algorithm }
    {
        self.algorithm
    }

    /// How many octets the key has.
    pub fn octet_count(&self) -> usize
        ensures { result ≡ length self.now.octets }
    {
        self.len
    }

    /// The key's octets: a secret, for a file of keys alone.
    pub fn octets(&self) -> &[u8]
        ensures octets { result.now ≡ self.now.octets }
        ensures some { 1 ≤ length result.now }
        ensures most { length result.now ≤ most_key_octets }
    {
        &self.padded[..self.len]
    }
}

/// The key's algorithm alone, since its octets are a secret.
impl fmt::Debug for Key {
    fn fmt<W: fmt::Write>(&self, f: &mut fmt::Formatter<W>) -> fmt::Result {
        f.debug_struct("Key")
            .field("algorithm", &self.algorithm)
            .finish_non_exhaustive()
    }
}
