//! What an event is answered.

use crate::Refusal;
use ntp_reply::Answer;

/// The answer to an event.
#[derive(Clone, Debug, PartialEq, Eq, Drop)]
pub enum Outcome {
    /// To a datagram.
    Datagram(Answer),
    /// To a departure: it was noted for the exchange that it names.
    Noted,
    /// To a departure: there is no such exchange, and nothing changed.
    NotNoted,
    /// The command was carried out.
    Done,
    /// The command was refused, and changed nothing.
    Refused(Refusal),
}
