//! The lines on standard error before the daemon serves, and its service manager.

use ntp_admin::{Escaped, Status, failed_status};
use ntp_host::{LogForm, Priority, ServiceManager};
use std::fmt::Display;
use std::io::{self, Stderr, Write};
use std::os::unix::fs::MetadataExt;
use std::{env, fs};

/// Writes the faults and warnings before the daemon serves to standard error, for which it waits. Each line begins as those of the log do.
#[derive(Drop)]
pub struct StartLines<W: Write + Drop> {
    out: W,
    form: LogForm,
    // How much the line matters, and whether a part of it was written.
    priority: Priority,
    is_started: bool,
}

impl<W: Write + Drop> StartLines<W> {
    /// Has the next line be a warning; those behind it are faults again.
    pub fn warning(&mut self) -> &mut StartLines<W> {
        self.priority = Priority::Warning;
        self
    }

    // Warns in a line of what there is to say of the file at a path, if anything.
    pub(crate) fn warn<D: Display + Drop>(&mut self, path: &str, what: Option<D>) {
        if let Some(what) = what {
            let _ = writeln!(self.warning(), "{}: {what}", Escaped(path));
        }
    }
}

impl<W: Write + Drop> Write for StartLines<W> {
    fn write(&mut self, octets: &[u8]) -> io::Result<usize> {
        if !self.is_started && self.form == LogForm::WithPriorities {
            write!(self.out, "<{}>", self.priority as u8)?;
        }
        self.is_started = true;
        let count = self.out.write(octets)?;
        if octets[..count.min(octets.len())].last() == Some(&b'\n') {
            self.is_started = false;
            self.priority = Priority::Error;
        }
        Ok(count)
    }

    fn flush(&mut self) -> io::Result<()> {
        self.out.flush()
    }
}

/// Writes to standard error before the daemon serves.
pub fn start_lines(rt: &HostRuntime) -> StartLines<Stderr> {
    StartLines {
        out: rt.stderr(),
        form: log_form(rt),
        priority: Priority::Error,
        is_started: false,
    }
}

/// Returns how lines on standard error begin: with priorities where the journal reads them.
pub fn log_form(rt: &HostRuntime) -> LogForm {
    journal_form(rt).unwrap_or(LogForm::Plain)
}

// Returns the form of lines that the journal reads, where it reads standard error: the device and inode of that are the word
// JOURNAL_STREAM of the environment (systemd.exec(5)).
fn journal_form(rt: &HostRuntime) -> Option<LogForm> {
    let stream = env::var(rt, "JOURNAL_STREAM").ok()?;
    let (device, inode) = stream.as_str().split_once(':')?;
    let standard_error = fs::metadata(rt, "/proc/self/fd/2").ok()?;
    (device.parse() == Ok(standard_error.dev())
        && inode.parse() == Ok(standard_error.ino())).then_some(LogForm::WithPriorities)
}

/// The service manager that hears of this process, where there is one.
pub fn service_manager(rt: &HostRuntime) -> Option<ServiceManager> {
    ServiceManager::at(env::var(rt, "NOTIFY_SOCKET").ok()?.as_str())
}

/// Returns what a call gave; else writes its fault under this name, and returns the exit status.
pub(crate) fn judged<T>(rt: &HostRuntime, name: &str, answer: io::Result<T>) -> Result<T, Status> {
    answer.map_err(|error| failed_status(name, &error, &mut start_lines(rt)))
}
