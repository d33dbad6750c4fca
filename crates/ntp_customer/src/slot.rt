//! One exchange.
use ntp_packet::Stamp;

/// What is saved of a time reply (profile, after RFC 9769).
#[derive(Clone, Copy, Debug, Default, PartialEq, Eq)]
pub struct Slot {
    /// The receive stamp of the reply, by which a later request names it, in units of 2^-32 seconds.
    pub receive: Stamp,
    /// The transmit stamp of the reply, or the stamp of its departure, once one was reported, in units
    /// of 2^-32 seconds.
    pub transmit: Stamp,
    /// Whether an interleaved reply has carried the transmit stamp. A used slot stays until it is
    /// overwritten (profile).
    pub used: bool,
}
