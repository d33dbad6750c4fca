//! What the log tells of lines of commands.
ghost use Rattle.std.specs.Prelude.{◌≡◌, OnOk, option_copied};
ghost use Rattle.std.specs.Io.KnownBytes.{Appends};
ghost use Rattle.ntp_reports.specs.AnswerText.{line_outcome_text};
ghost use Rattle.ntp_reports.specs.Logging.{logged_command, logged_line, customers_after};

use ntp_service::{Address, Command, LineOutcome};
use std::io::{self, Write};

/// Writes the line of the log that tells of the line of commands with a number, without its line feed:
/// `commands: line N: COMMAND ADDRESS NUMBER: OUTCOME`, with no command where it is none. Of a command neither its key is written nor
/// its budget. It takes no memory.
pub fn write_logged_line<W: Write>(
    out: &mut W,
    number: u64,
    command: Option<&Command>,
    outcome: LineOutcome,
) -> io::Result<()>
    ensures { OnOk result (Appends (W.contents out.old) (W.contents out.new)
        (logged_line number (option_copied command.entry) outcome)) }
{
    write!(out, "commands: line {number}: ")?;
    if let Some(command) = command {
        write_command(out, command)?;
    }
    write_outcome(out, outcome)
}

// Writes the word of a command, the address and the key number that it names, and a colon behind them.
fn write_command<W: Write>(out: &mut W, command: &Command) -> io::Result<()>
    ensures { OnOk result (Appends (W.contents out.old) (W.contents out.new) (logged_command command.now)) }
{
    let word = command.word();
    let Address([a, b, c, d]) = command.address();
    match command.number_named() {
        Some(number) => write!(out, "{word} {a}.{b}.{c}.{d} {number}: "),
        None => write!(out, "{word} {a}.{b}.{c}.{d}: "),
    }
}

// Writes what became of a line.
fn write_outcome<W: Write>(out: &mut W, outcome: LineOutcome) -> io::Result<()>
    ensures { OnOk result (Appends (W.contents out.old) (W.contents out.new) (line_outcome_text outcome)) }
{
    match outcome {
        LineOutcome::Done => write!(out, "done"),
        LineOutcome::Refused(refusal) => write!(out, "refused {}", refusal.word()),
        LineOutcome::Faulty(fault) => write!(out, "faulty {}", fault.word()),
    }
}

/// How many customers are enrolled after a line of commands; `customers` were before it.
pub fn customers_after(customers: u64, command: Option<&Command>, outcome: LineOutcome) -> u64
    ensures { result ≡ customers_after customers (option_copied command.entry) outcome }
{
    match (command, outcome) {
        (Some(Command::Enrol { .. }), LineOutcome::Done) => customers.saturating_add(1),
        (Some(Command::Revoke { .. }), LineOutcome::Done) => customers.saturating_sub(1),
        _ => customers,
    }
}
