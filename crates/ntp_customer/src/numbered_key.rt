//! A key and the number by which packets name it.
use ntp_mac::Key;

/// A key with its number, from 1 to 65,535, which RFC 5905 calls the key identifier.
#[derive(Clone, Copy, Debug, PartialEq, Eq)]
pub struct NumberedKey {
    pub number: u16,
    pub key: Key,
}
