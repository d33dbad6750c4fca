//! The client for people: `labntp-query` asks a server, and prints what came of it.
#![tactic(auto)]

mod command_line;
mod faults;
mod json;
mod key;
mod querying;
mod udp_link;

use clap::Error;
use clap::error::ErrorKind;
use command_line::parse;
use faults::Faults;
use ntp_host::has_standard_streams;
use querying::query_status;
use std::process::ExitCode;
use std::{env, io};

/// The words were refused.
const USAGE_REFUSED: u8 = 2;

fn main(rt: HostRuntime) -> ExitCode {
    ExitCode::from(status(&rt))
}

// Does what the command line asks for, and gives the exit status.
fn status(rt: &HostRuntime) -> u8 {
    let is_check = false;
    let person = Faults { rt, is_check };
    // Where one is closed, the socket takes its place, and would send the server what is printed.
    if !has_standard_streams() {
        return person.report("write");
    }
    let words = match words(rt) {
        Ok(words) => words,
        // Nobody knows whether a check is asked for, so this has the status of one too.
        Err(error) if error.kind() == io::ErrorKind::OutOfMemory => return person.report("memory"),
        // A word is no text.
        Err(_) => return person.report("usage"),
    };
    match parse(rt.alloc(), &words) {
        Ok(asked) => query_status(rt, &asked).unwrap_or_else(|status| status),
        Err(error) => refused_status(rt, &error, &words),
    }
}

// Says why the words ask for no query, and gives the exit status. The help and the version go to standard output. The words ask for a check
// where one of them begins as the limits do.
fn refused_status(rt: &HostRuntime, error: &Error, words: &[String]) -> u8 {
    let is_check = words.iter().any(|word| word.starts_with("--max-")
        || word.starts_with("--warn-"));
    let faults = Faults { rt, is_check };
    if error.kind() == ErrorKind::OutOfMemory {
        return faults.memory();
    }
    match error.print(rt) {
        _ if error.use_stderr() && is_check => faults.report("usage"),
        _ if error.use_stderr() => USAGE_REFUSED,
        Ok(()) => 0,
        Err(_) => faults.report("write"),
    }
}

// The words of the command line; the first is the program's name.
fn words(rt: &HostRuntime) -> io::Result<Vec<String>> {
    Ok(env::args(rt)?.collect(rt.alloc())?)
}
