//! What a datagram is answered.
ghost use Rattle.std.specs.Prelude.{◌≡◌, option_map};
ghost use Rattle.ntp_reply.specs.Verdict.{reply_in};

use ntp_mac::Reply;
use ntp_packet::{Malformed, Stamp};

/// Why a datagram gets no reply (profile).
#[derive(Clone, Copy, Debug, PartialEq, Eq)]
pub enum Reason {
    /// The address was never enrolled.
    Unregistered,
    /// The octets are no packet.
    Malformed(Malformed),
    /// The version is neither 3 nor 4.
    Version,
    /// The mode is not 3, a client's.
    Mode,
    /// The tail is a bare identifier.
    Bare,
    /// Refusals enough were sent in this window.
    Muted,
    /// The budget of this window, and its one RATE, are spent.
    OverBudget,
}

/// A reply to a signed query.
#[derive(Clone, Debug, PartialEq, Eq, Drop)]
pub struct SignedReply {
    /// Its octets.
    pub octets: Reply,
    /// The number of the key that signs both.
    pub number: u16,
    /// Whether it carries the departure of an earlier reply (RFC 9769, 2).
    pub is_interleaved: bool,
}

/// The answer to a datagram.
#[derive(Clone, Debug, PartialEq, Eq, Drop)]
pub enum Answer {
    /// Time, signed. `saved` is the new receive stamp.
    Time { reply: SignedReply, saved: Stamp },
    /// The kiss `RATE`, signed.
    Rate(SignedReply),
    /// The kiss `DENY`, unsigned.
    Deny(Reply),
    /// A crypto-NAK.
    Nak(Reply),
    /// No reply.
    Silent(Reason),
}

impl Answer {
    /// The reply, if it has one.
    pub fn reply(&self) -> Option<&Reply>
        ensures { option_map (λ reply. reply.now) result ≡ reply_in self.now }
    {
        match self {
            Answer::Time { reply, .. } | Answer::Rate(reply) => Some(&reply.octets),
            Answer::Deny(reply) | Answer::Nak(reply) => Some(reply),
            Answer::Silent(_) => None,
        }
    }
}
