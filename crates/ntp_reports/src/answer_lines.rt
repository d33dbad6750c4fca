//! Answers to lines of commands.
ghost use Rattle.std.specs.Prelude.{◌≡◌, OnOk, None};
ghost use Rattle.std.specs.Io.KnownBytes.{Appends};
ghost use Rattle.ntp_reports.specs.AnswerText.{answer_line, AnswersLine};

use ntp_service::LineOutcome;
use std::io::{self, Write};

/// Writes a line for each line of commands: `N done`, `N refused WORD` or `N faulty WORD`, where N counts the file's lines
/// from 1. A write that fails is passed over, and noted. It takes no memory.
#[derive(Drop)]
pub struct AnswerLines<W> {
    answers: W,
    fault: Option<io::Error>,
}

impl<W: Write> AnswerLines<W> {
    /// Writes to `answers` from here on.
    pub fn new(answers: W) -> AnswerLines<W>
        ensures answers { result.answers ≡ answers }
        ensures fault { result.fault ≡ None }
    {
        AnswerLines {
            answers,
            fault: None,
        }
    }

    /// Why the first write failed that did, if one has so far.
    pub fn fault(&self) -> Option<io::Error>
        ensures { result ≡ self.now.fault }
    {
        self.fault
    }

    // Writes what became of the line with a number.
    fn write_answer(&mut self, number: u64, outcome: LineOutcome) -> io::Result<()>
        ensures written { OnOk result (Appends (W.contents self.old.answers) (W.contents self.new.answers) (answer_line number outcome)) }
        ensures kept { self.new.fault ≡ self.old.fault }
    {
        let out = &mut self.answers;
        match outcome {
            LineOutcome::Done => writeln!(out, "{number} done"),
            LineOutcome::Refused(refusal) => writeln!(out, "{number} refused {}", refusal.word()),
            LineOutcome::Faulty(fault) => writeln!(out, "{number} faulty {}", fault.word()),
        }
    }

    /// Answers the line with a number.
    pub fn line(&mut self, number: u64, outcome: LineOutcome)
        ensures { AnswersLine W.contents number outcome self.old self.new }
    {
        // The run goes on whether or not somebody can be told.
        if let Err(error) = self.write_answer(number, outcome) {
            self.fault.get_or_insert(error);
        }
    }
}
