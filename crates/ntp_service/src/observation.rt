//! What comes of the lines of commands and of the turns of a server.
ghost use Rattle.std.specs.Prelude.{◌≡◌};
ghost use Rattle.ntp_service.specs.Sending.{was_sent, was_noted};

use crate::{Address, Command, LineFault, Refusal};
use ntp_packet::Moment;
use ntp_reply::Answer;

/// What is known of a datagram beside its octets.
#[derive(Clone, Copy, Debug, PartialEq, Eq)]
pub struct Arrival {
    /// The address from which it came.
    pub address: Address,
    /// The UDP port from which it came.
    pub port: u16,
    /// How many octets it has, at most 1,025: a longer one is cut.
    pub length: usize,
    /// When it came.
    pub receipt: Moment,
}

/// What became of the reply to a datagram.
#[derive(Clone, Copy, Debug, PartialEq, Eq)]
pub enum Sending {
    /// The datagram gets none.
    NoReply,
    /// It could not be sent.
    NotSent,
    /// It was sent. It was no time reply, so no departure is reported of it.
    Sent,
    /// It was sent, and its departure was noted.
    Noted,
    /// It was sent, and the report of its departure was not noted.
    NotNoted,
}

impl Sending {
    /// Whether the reply was sent.
    pub fn was_sent(self) -> bool
        ensures { result ≡ was_sent self }
    {
        matches!(self, Sending::Sent | Sending::Noted | Sending::NotNoted)
    }

    /// Whether the reply's departure was noted.
    pub fn was_noted(self) -> bool
        ensures { result ≡ was_noted self }
    {
        matches!(self, Sending::Noted)
    }
}

/// What was done in one turn of a server.
#[derive(Clone, Debug, PartialEq, Eq, Drop)]
pub enum TurnOutcome {
    /// No datagram could be received.
    NothingReceived,
    /// A datagram was answered.
    Answered {
        /// Where and when it came.
        arrival: Arrival,
        /// Its answer.
        answer: Answer,
        /// What became of the reply.
        sending: Sending,
    },
}

/// What became of a line of commands.
#[derive(Clone, Copy, Debug, PartialEq, Eq)]
pub enum LineOutcome {
    /// Its command was carried out.
    Done,
    /// Its command was refused, and changed nothing.
    Refused(Refusal),
    /// It is no command.
    Faulty(LineFault),
}

/// What an observer is told of: a line of commands, or a turn.
#[derive(Clone, Debug, PartialEq, Eq, Drop)]
pub enum Observation {
    /// The line with this number, counted from 1, and what became of it.
    Line {
        /// The number of the line in its file.
        number: u64,
        /// Its command, if it is one.
        command: Option<Command>,
        /// What became of it.
        outcome: LineOutcome,
    },
    /// What was done in a turn.
    Turn(TurnOutcome),
}
