//! How many turns and lines of commands of each kind there were.
ghost use Rattle.std.specs.Prelude.{◌≡◌, ℕ, Option, List, [], ◌∷◌};
ghost use Rattle.ntp_service.specs.{declared.command.Command.Command, declared.observation.Observation.Observation};
ghost use Rattle.ntp_reports.specs.Counted.{count_at, nothing_counted, AreCounts, CountsOneMore, Adds};

use crate::kind::{KINDS, Kind};
use crate::kinds::{answer_kind, line_kind};
use ntp_service::{LineOutcome, Sending, TurnOutcome};

/// How many turns and lines there were of each kind. A count that has come to 2^64 - 1 stays there; no server makes so
/// many turns. It takes no memory.
#[derive(Clone, Copy, Debug, PartialEq, Eq)]
pub struct Counts {
    by_kind: [u64; KINDS],
}

impl Counts {
    /// The counts of nothing yet.
    pub fn new() -> Counts
        ensures counts { AreCounts result [] }
        ensures value { result ≡ nothing_counted }
    {
        Counts {
            by_kind: [0; KINDS],
        }
    }

    /// How many there were of a kind.
    pub fn count(&self, kind: Kind) -> u64
        ensures { result ≡ count_at self.now kind }
    {
        self.by_kind[kind as usize]
    }

    /// Counts a turn: its answer, a reply that could not be sent, and a departure that was noted.
    pub fn count_turn(&mut self, outcome: &TurnOutcome)
        ensures { CountsOneMore self.old self.new (Observation.Turn outcome.now) }
    {
        match outcome {
            TurnOutcome::NothingReceived => self.add(Kind::NothingReceived),
            TurnOutcome::Answered {
                answer,
                sending,
                ..
            } => {
                self.add(answer_kind(answer));
                match sending {
                    Sending::NotSent => self.add(Kind::NotSent),
                    Sending::Noted => self.add(Kind::Noted),
                    Sending::NoReply | Sending::Sent | Sending::NotNoted => {}
                }
            }
        }
    }

    /// Counts a line of commands, whatever its number and its command.
    pub fn count_line(&mut self, outcome: LineOutcome)
        ensures { (number : ℕ) (command : Option Command)
            → CountsOneMore self.old self.new (Observation.Line number command outcome) }
    {
        self.add(line_kind(outcome));
    }

    // Counts one of a kind.
    fn add(&mut self, kind: Kind)
        ensures { Adds self.old self.new (kind ∷ []) }
    {
        let place = kind as usize;
        self.by_kind[place] = self.by_kind[place].saturating_add(1);
    }
}
