//! Who is told what a server does.
ghost use Rattle.std.specs.Prelude.{option_copied};
ghost use Rattle.ntp_service.specs.declared.observation.Observation.{Observation};

use crate::{Command, LineOutcome, TurnOutcome};

/// Who is told of each line of commands and of each turn.
pub trait Observer {
    // How an observation leads it from one state to the next, as far as it says that.
    ghost heard: { Self → Self → Observation → Type 0 } = { λ _ _ _. Unit {0} };

    /// Hears of a line of commands that was taken and is not passed over, once it is carried out: of its number in the file,
    /// counted from 1, of its command, if it is one, and of what became of it.
    fn line(&mut self, number: u64, command: Option<&Command>, outcome: LineOutcome)
        ensures { heard self.old self.new (Observation.Line number (option_copied command.entry) outcome) };

    /// Hears of a turn that was made.
    fn turn(&mut self, outcome: &TurnOutcome)
        ensures { heard self.old self.new (Observation.Turn outcome.now) };
}
