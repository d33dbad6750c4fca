//! An observer that writes what is wrong with a line of commands.
ghost use Rattle.std.specs.Prelude.{◌≡◌, false};
ghost use Rattle.std.specs.{Bool.OnFalse, Io.KnownBytes.Appends};
ghost use Rattle.ntp_admin.specs.CommandsFile.{line_text};

use ntp_service::{Command, LineOutcome, Observer, TurnOutcome};
use std::io::Write;

/// Writes a line for each line of commands that is no command, or whose command is refused: `commands: line N: WORD`,
/// where N counts the file's lines from 1. A write that fails is passed over, and noted. It takes no memory.
#[derive(Drop)]
pub struct FaultLines<W> {
    faults: W,
    has_failed: bool,
}

impl<W: Write> FaultLines<W> {
    /// Writes to `faults` from here on.
    pub fn new(faults: W) -> FaultLines<W>
        ensures faults { result.faults ≡ faults }
        ensures has_failed { result.has_failed ≡ false }
    {
        FaultLines {
            faults,
            has_failed: false,
        }
    }

    /// Whether a write has failed so far.
    pub fn has_failed(&self) -> bool
        ensures { result ≡ self.now.has_failed }
    {
        self.has_failed
    }
}

impl<W: Write> Observer for FaultLines<W> {
    // Where no write has failed, what is wrong with the line was written, and every write before went well.
    fn line(&mut self, number: u64, _command: Option<&Command>, outcome: LineOutcome)
        ensures written { OnFalse self.new.has_failed
            (Appends (W.contents self.old.faults) (W.contents self.new.faults) (line_text number outcome)) }
        ensures done { outcome ≡ LineOutcome.Done → self.new ≡ self.old }
        ensures noted { OnFalse self.new.has_failed (self.old.has_failed ≡ false) }
    {
        let word = match outcome {
            LineOutcome::Done => return,
            LineOutcome::Refused(refusal) => refusal.word(),
            LineOutcome::Faulty(fault) => fault.word(),
        };
        // The run goes on whether or not somebody can be told.
        if writeln!(self.faults, "commands: line {number}: {word}").is_err() {
            self.has_failed = true;
        }
    }

    // A turn makes no line.
    fn turn(&mut self, _outcome: &TurnOutcome)
        ensures { self.new ≡ self.old }
    {}
}
