//! What hinders a query, in one line, and the exit status.

use ntp_admin::Escaped;
use std::fmt::Display;
use std::io::{self, ErrorKind};

/// The key file or the socket gave nothing to ask with; of a check, whatever hindered it (Monitoring Plugins).
const NOT_ASKED: u8 = 3;

/// Memory ran out.
const MEMORY_OUT: u8 = 4;

/// Says what hinders a query, in one line: to a person on standard error, and to monitoring, where a check is asked for, on
/// standard output. If that write fails, nothing comes of it.
#[derive(Clone, Copy)]
pub struct Faults<'a> {
    /// Where it is printed.
    pub rt: &'a HostRuntime,
    /// Whether a check is asked for.
    pub is_check: bool,
}

impl<'a> Faults<'a> {
    /// Says what is wrong with the key file, the socket or standard output, and gives the exit status.
    pub fn report<D: Display + Drop>(self, fault: D) -> u8 {
        let _ = if self.is_check {
            println!(self.rt; "NTP UNKNOWN: {fault}")
        } else {
            eprintln!(self.rt; "{fault}")
        };
        NOT_ASKED
    }

    /// Says which error the system had at something, and gives the exit status.
    pub fn of_system(self, what: &str, error: &io::Error) -> u8 {
        if error.kind() == ErrorKind::OutOfMemory {
            return self.memory();
        }
        self.report(format_args!("{}: {error}", Escaped(what)))
    }

    /// Says that memory ran out, and gives the exit status.
    pub fn memory(self) -> u8 {
        let status = self.report("memory");
        if self.is_check { status } else { MEMORY_OUT }
    }

    /// Prints a line on standard output. If that fails, says so; the error is the exit status.
    pub fn print<D: Display + Drop>(self, line: D) -> Result<(), u8> {
        println!(self.rt; "{line}").map_err(|_| self.report("write"))
    }
}
