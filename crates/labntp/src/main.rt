//! The program: `labntp replay` runs a script from standard input to standard output, `labntp serve` serves customers over
//! a socket, and `labntp loopback` lets a server and a client meet.
#![tactic(auto)]

mod loopback;
mod serve_job;
mod whole_commands;

use labntp_jobs::{Job, Watched, job, replay_status};
use loopback::loopback_status;
use ntp_admin::{unread_status, usage_status};
use serve_job::serve_status;
use std::process::ExitCode;
use std::{env, io};

fn main(rt: HostRuntime) -> ExitCode {
    let mut faults = rt.stderr();
    ExitCode::from(match command_line(&rt) {
        Err(error) => unread_status(&error, &mut faults).code(),
        Ok(words) => match job(&words) {
            Some(Job::Replay) => {
                let mut reader = Watched::new(rt.stdin());
                let mut writer = Watched::new(rt.stdout());
                replay_status(rt.alloc(), &mut reader, &mut writer, &mut faults)
            }
            Some(Job::Serve(serving)) => {
                serve_status(&rt, rt.alloc(), &serving, &mut rt.stdout(), &mut faults).code()
            }
            Some(Job::Loopback { turns }) => {
                loopback_status(&rt, rt.alloc(), turns, &mut rt.stdout(), &mut faults).code()
            }
            None => usage_status(&mut faults).code(),
        },
    })
}

// The words behind the program's name.
fn command_line(rt: &HostRuntime) -> io::Result<Vec<String>> {
    Ok(env::args(rt)?.skip(1).collect(rt.alloc())?)
}
