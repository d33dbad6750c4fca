//! Replies, and what is put behind their header.
ghost use Rattle.std.specs.Prelude.{◌≡◌, ◌↔◌, ◌+◌, ◌<◌, ◌≤◌, ◌++◌, length, IsNone, IfSome};
ghost use Rattle.ntp_packet.specs.Header.{header_length, header_octets};
ghost use Rattle.ntp_mac.specs.Digest.{digest_length};
ghost use Rattle.ntp_mac.specs.Mac.{most_reply_octets, mac_of, nak_octets};

use crate::{Key, digest};
use arrayvec::ArrayVec;
use ntp_packet::{Header, write_header};
use std::marker::Model;

/// How many octets a reply has at most: a header, a key number and a digest of SHA-1 (profile).
const MOST_REPLY_OCTETS: usize = 72;

/// An outgoing packet of at most 72 octets, which is held in place. Contracts see its octets.
#[derive(Clone, Debug, Drop)]
pub struct Reply {
    octets: ArrayVec<u8, MOST_REPLY_OCTETS>,
}

impl Model for Reply {
    ghost use Rattle.std.specs.Prelude.{ℕ, List};

    ghost Value = { List ℕ };

    ghost view = { λ r. r.octets.items };
}

impl Reply {
    /// The octets of a header, with nothing behind it.
    pub fn from_header(header: &Header) -> Reply
        ensures header { result ≡ header_octets header.now }
        ensures octets { length result ≡ header_length }
    {
        let mut reply = Reply {
            octets: ArrayVec::new(),
        };
        reply.append(&write_header(header));
        reply
    }

    /// A reply of these octets. `None` exactly where there are more than 72.
    pub fn from_octets(octets: &[u8]) -> Option<Reply>
        ensures none { IsNone result ↔ (most_reply_octets < length octets.now) }
        ensures some { IfSome result (λ reply. reply ≡ octets.now) }
    {
        if octets.len() > MOST_REPLY_OCTETS {
            return None;
        }
        let mut reply = Reply {
            octets: ArrayVec::new(),
        };
        reply.append(octets);
        Some(reply)
    }

    /// The octets of the reply, from the first octet of its header on.
    pub fn octets(&self) -> &[u8]
        ensures octets { result.now ≡ self.now }
        ensures most { length result.now ≤ most_reply_octets }
    {
        self.octets.as_slice()
    }

    // Appends octets for which there is room.
    fn append(&mut self, octets: &[u8])
        requires { length self.old + length octets.now ≤ most_reply_octets }
        ensures { self.new ≡ self.old ++ octets.now }
    {
        let _ = self.octets.try_extend_from_slice(octets);
    }
}

/// Two replies are equal where their octets are.
impl PartialEq for Reply {
    ghost use Rattle.std.specs.Prelude.{nat_eq};
    ghost use Rattle.std.specs.{Cmp.partial_equiv_from_equiv, Cmp.Lexicographic.pointwise, Cmp.Lexicographic.nat_list_eq_equiv};

    ghost eq = { pointwise nat_eq };

    ghost laws = { partial_equiv_from_equiv nat_list_eq_equiv };

    fn eq(&self, other: &Self) -> bool {
        self.octets() == other.octets()
    }
}

impl Eq for Reply {
    ghost use Rattle.std.specs.Cmp.Lexicographic.{nat_list_eq_equiv};

    ghost laws = { nat_list_eq_equiv };
}

/// Appends a MAC to a reply that is a header: the key number in 32 bits, then the digest of the
/// header under the key (RFC 5905, 7.3; with SHA-1: profile). The reply then has 68 octets under MD5,
/// 72 under SHA-1.
pub fn seal(key: &Key, number: u16, reply: &mut Reply)
    requires { length reply.old ≡ header_length }
    ensures sealed { reply.new ≡ reply.old ++ mac_of key.now number reply.old }
    ensures octets { length reply.new ≡ 52 + digest_length key.now.algorithm }
    ensures most { length reply.new ≤ most_reply_octets }
{
    let digest = digest(key, reply.octets());
    reply.append(&u32::from(number).to_be_bytes());
    reply.append(digest.octets());
}

/// Appends the four zeros of a crypto-NAK to a reply that is a header (RFC 5905). The reply then has
/// 52 octets.
pub fn add_nak(reply: &mut Reply)
    requires { length reply.old ≡ header_length }
    ensures nak { reply.new ≡ reply.old ++ nak_octets }
    ensures octets { length reply.new ≡ 52 }
{
    reply.append(&[0; 4]);
}
