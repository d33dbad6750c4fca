//! What a client takes octets for.

use crate::Sample;
use ntp_packet::{Header, Malformed};

/// What a client takes octets for that arrive.
#[derive(Clone, Copy, Debug, PartialEq, Eq)]
pub enum Taken {
    /// An authentic time reply to the request that waited, which waits no longer.
    Sample(Sample),
    /// An authentic kiss `RATE`: the server is asked too often. The request waits no longer.
    Rate,
    /// The kiss `DENY`, which is not authentic: the server may refuse to serve. The request still waits.
    Deny,
    /// A crypto-NAK, which is not authentic: the server may have another key. The request still waits.
    Nak,
    /// None of these. The request still waits.
    Refused(Distrust),
}

/// What a client takes octets for, with the header that it judged: that of the packet that they are, where a request waits.
#[derive(Clone, Copy, Debug, PartialEq, Eq)]
pub struct TakenPacket {
    /// What they are taken for.
    pub taken: Taken,
    /// The header. `None` where they are no packet, or nothing was asked.
    pub header: Option<Header>,
}

/// Why a client refuses octets. The first that applies is told (profile).
#[derive(Clone, Copy, Debug, PartialEq, Eq)]
pub enum Distrust {
    /// No request waits for a reply.
    NothingAsked,
    /// They are no packet.
    Malformed(Malformed),
    /// The mode is not 4, a server's.
    Mode,
    /// The version is not 4.
    Version,
    /// They are no reply to the request: the origin stamp is none of its stamps.
    Origin,
    /// They have no MAC, and are neither a kiss `DENY` nor a crypto-NAK to the request.
    Unsigned,
    /// The MAC is not that of the client's key.
    Mac,
    /// The server's clock is unsynchronised: leap 3, stratum 0 or a stratum above 15.
    Unsynchronised,
    /// The receive or the transmit stamp is 0, unknown time.
    Stamps,
}
