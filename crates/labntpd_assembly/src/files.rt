//! What the daemon reads and writes while it serves, and why that fails.

use labntpd_files::{Configuration, Text};
use ntp_host::{AppendedFile, CommandsFault, CommandsFile};
use ntp_port::CommandsSource;
use ntp_reports::FileGauges;
use std::alloc::Global;
use std::fmt;
use std::io::{self, ErrorKind};

/// The commands of a daemon, and what its log and its statistics say of their file.
pub trait DaemonCommands: CommandsSource<Global> {
    /// What is wrong with the file by now, if anything.
    fn fault(&self) -> Option<CommandsFault>;

    /// How many octets the lines have that were read.
    fn octets(&self) -> u64;
}

impl<'a, F: AppendedFile> DaemonCommands for CommandsFile<'a, F> {
    fn fault(&self) -> Option<CommandsFault> {
        self.fault()
    }

    fn octets(&self) -> u64 {
        self.octets()
    }
}

/// What is wrong with a file of the daemon.
#[derive(Clone, Copy)]
pub enum FileFault {
    /// The commands file is not read, or not all of it.
    Commands(CommandsFault),
    /// It cannot be written.
    Unwritten(io::Error),
    /// The customers file lacks a customer for which there was no memory.
    Incomplete,
}

/// Returns whether the log has the same words for two faults of a file.
pub(crate) fn have_same_words(one: &Option<FileFault>, other: &Option<FileFault>) -> bool {
    match (one, other) {
        (Some(one), Some(other)) => one.words() == other.words(),
        (None, None) => true,
        _ => false,
    }
}

impl FileFault {
    // Returns a number for the words that the log has for it, and what the system says in them.
    fn words(&self) -> (u8, Option<(ErrorKind, Option<i32>)>) {
        let said = |error: &io::Error| Some((error.kind(), error.raw_os_error()));
        match self {
            FileFault::Commands(CommandsFault::Unreadable(error)) => (0, said(error)),
            FileFault::Commands(CommandsFault::Full) => (1, None),
            FileFault::Commands(CommandsFault::Replaced) => (2, None),
            FileFault::Commands(CommandsFault::Shorter) => (3, None),
            FileFault::Commands(CommandsFault::Rewritten) => (4, None),
            FileFault::Unwritten(error) => (5, said(error)),
            FileFault::Incomplete => (6, None),
        }
    }
}

/// What the log says of it.
impl fmt::Display for FileFault {
    fn fmt<W: fmt::Write>(&self, f: &mut fmt::Formatter<W>) -> fmt::Result {
        match self {
            FileFault::Commands(fault) => write!(f, "{fault}"),
            FileFault::Unwritten(error) => write!(f, "cannot be written: {error}"),
            FileFault::Incomplete => f.write_str("lacks a customer, for want of memory"),
        }
    }
}

/// A file that can fail while the daemon serves.
#[derive(Clone, Copy)]
pub(crate) struct WatchedFile<'a> {
    /// Its name in the log.
    pub name: &'a str,
    /// Its path; empty where the configuration has none.
    pub path: &'a str,
    /// What is wrong with it, if anything.
    pub fault: Option<FileFault>,
    /// What was logged of it last.
    pub logged: Option<FileFault>,
}

impl<'a> WatchedFile<'a> {
    // A file of which nothing wrong was seen yet.
    fn new(name: &'a str, path: Option<&'a Text>) -> WatchedFile<'a> {
        WatchedFile {
            name,
            path: path.map_or("", |path| path.as_str()),
            fault: None,
            logged: None,
        }
    }
}

/// The files that can fail while the daemon serves.
#[derive(Clone, Copy)]
pub(crate) struct WatchedFiles<'a> {
    pub commands: WatchedFile<'a>,
    pub answers: WatchedFile<'a>,
    pub statistics: WatchedFile<'a>,
    pub customers: WatchedFile<'a>,
}

impl<'a> WatchedFiles<'a> {
    /// The files of a configuration, of which nothing wrong was seen yet.
    pub(crate) fn of(configuration: &'a Configuration) -> WatchedFiles<'a> {
        WatchedFiles {
            commands: WatchedFile::new("commands", Some(&configuration.commands)),
            answers: WatchedFile::new("answers", configuration.answers.as_ref()),
            statistics: WatchedFile::new("statistics", configuration.statistics.as_ref()),
            customers: WatchedFile::new("customers", configuration.customers.as_ref()),
        }
    }

    /// Returns which files are well.
    pub(crate) fn gauges(&self) -> FileGauges {
        FileGauges {
            commands: self.commands.fault.is_none(),
            answers: self.answers.fault.is_none(),
            statistics: self.statistics.fault.is_none(),
            customers: self.customers.fault.is_none(),
        }
    }
}
