//! The daemon: `labntpd --config FILE` serves the customers of a commands file day and night.
#![tactic(auto)]

mod assembly;

use assembly::serve;
use labntpd_files::Configuration;
use labntpd_files::command_line::{Asked, parse, refused_status};
use labntpd_start::{check_socket, commands_at, prepare, start_lines};
use ntp_admin::{Escaped, Status, unread_status, write_status};
use ntp_host::{HostClocks, is_nearly_full, write_nearly_full};
use std::io::Write;
use std::process::ExitCode;
use std::{env, fs, io};

fn main(rt: HostRuntime) -> ExitCode {
    ExitCode::from(status(&rt).code())
}

// Does what the command line asks for, and gives the exit status.
fn status(rt: &HostRuntime) -> Status {
    let mut faults = start_lines(rt);
    let words = match command_line(rt) {
        Ok(words) => words,
        Err(error) => return unread_status(&error, &mut faults),
    };
    match parse(rt.alloc(), &words) {
        Ok(Asked { check, config }) => job_status(rt, check, config),
        Err(error) => refused_status(rt, &error, &mut faults),
    }
}

// Does a job, and gives the exit status.
fn job_status(rt: &HostRuntime, check: bool, config: &str) -> Status {
    match do_job(rt, check, config) {
        Ok(()) => Status::Done,
        Err(status) => status,
    }
}

// Checks the files that a configuration names, or serves by them.
fn do_job(rt: &HostRuntime, check: bool, config: &str) -> Result<(), Status> {
    let prepared = prepare(rt, rt.alloc(), config, &mut start_lines(rt))?;
    if check {
        check_host(rt, &prepared.configuration)
    } else {
        serve(rt, rt.alloc(), prepared)
    }
}

// Judges the socket that was handed down, if one was, opens the commands file, and says that all is well.
fn check_host(rt: &HostRuntime, configuration: &Configuration) -> Result<(), Status> {
    check_socket(rt, rt.alloc(), configuration.listen)?;
    let mut faults = start_lines(rt);
    let path = configuration.commands.as_str();
    let clocks = HostClocks::new();
    commands_at(rt, path, &clocks, &mut faults)?;
    let octets = fs::metadata(rt, path).map_or(0, |metadata| metadata.len());
    if is_nearly_full(octets) {
        let _ = write!(faults.warning(), "{}: ", Escaped(path));
        write_nearly_full(&mut faults, octets);
        let _ = writeln!(faults);
    }
    if writeln!(rt.stdout(), "ok").is_err() {
        return Err(write_status(&mut faults));
    }
    Ok(())
}

// The words of the command line. The first is the program's name.
fn command_line(rt: &HostRuntime) -> io::Result<Vec<String>> {
    Ok(env::args(rt)?.collect(rt.alloc())?)
}
