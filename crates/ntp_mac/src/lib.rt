//! Symmetric keys, digests under them, and replies that are sealed by one (RFC 5905, 7.3). The digests
//! are MD5's (RFC 1321) and, by profile, SHA-1's (FIPS 180-4).
#![tactic(auto)]

mod hashing;
mod key;
mod laws;
mod reply;
mod verifying;

pub use hashing::digest;
pub use key::{Algorithm, Key, KeyFault, MOST_KEY_OCTETS};
pub use laws::octets_are_what_they_are_read_as;
pub use ntp_packet::Digest;
pub use reply::{Reply, add_nak, seal};
pub use verifying::verifies;
