//! The words of the daemon's command line.

use clap::error::ErrorKind;
use clap::{Arg, ArgAction, Command, Error};
use ntp_admin::{Status, memory_status, write_status};
use std::alloc::{AllocError, Global};
use std::io::Write;

/// The daemon's version.
pub const VERSION: &str = "0.2.0";

/// What the words of a command line ask for.
#[derive(Clone, Copy)]
pub struct Asked<'a> {
    /// Whether the files are only to be checked, and nothing is to be served.
    pub check: bool,
    /// The path of the configuration file.
    pub config: &'a str,
}

/// What the words `labntpd [--check] --config FILE` ask for, else a mistake, a request for help or version, or want of memory. The first
/// is the program's name.
pub fn parse<'a>(alloc: Global, words: &'a [String]) -> Result<Asked<'a>, Error> {
    let matches = command(alloc)?.try_get_matches_from(words)?;
    // Words without `--config` are refused above already.
    let Some(config) = matches.get_str("config") else {
        let message = "--config FILE is missing";
        return Err(command(alloc)?.error(ErrorKind::MissingRequiredArgument, message)?);
    };
    Ok(Asked {
        check: matches.get_flag("check"),
        config,
    })
}

/// Prints help and version on standard output, a mistake on standard error, and gives the exit status. `faults` gets want of memory, and
/// that a write to standard output failed.
pub fn refused_status<F: Write>(rt: &HostRuntime, error: &Error, faults: &mut F) -> Status {
    if error.kind() == ErrorKind::OutOfMemory {
        return memory_status(faults);
    }
    match error.print(rt) {
        _ if error.use_stderr() => Status::UsageRefused,
        Ok(()) => Status::Done,
        Err(_) => write_status(faults),
    }
}

fn command<'a>(alloc: Global) -> Result<Command<'a>, AllocError> {
    let config = Arg::new(alloc, "config")
        .long("config")
        .value_name("FILE")
        .required(true)
        .action(ArgAction::Set)
        .help("The configuration file");
    let check = Arg::new(alloc, "check")
        .long("check")
        .action(ArgAction::SetTrue)
        .help(
            "Only says whether the configuration file and the files that it names can be served from",
        );
    Command::new(alloc, "labntpd")
        .version(VERSION)
        .about("Serves NTP to registered customers, with signed replies")
        .arg(config)?
        .arg(check)
}
