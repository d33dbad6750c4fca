//! The program for clerks: `labntpctl` lists the customers of labntpd, and enrols, revokes and changes them.
#![tactic(auto)]

mod appending;
mod applying;
mod changing;
mod checking;
mod command_line;
mod commands_file;
mod customers;
mod desk;
mod door;
mod explaining;

use command_line::{Task, parse};
use desk::{Clerk, Desk, Stop};
use labntpd_files::command_line::refused_status;
use ntp_admin::{Status, unread_status, write_status};
use ntp_host::has_standard_streams;
use std::process::ExitCode;
use std::{env, io};

fn main(rt: HostRuntime) -> ExitCode {
    ExitCode::from(status(Desk { rt: &rt }).code())
}

// Does what the command line asks for, and returns the exit status.
fn status(desk: Desk<'_>) -> Status {
    // A file that is opened would take the place of a closed stream, and get what is printed.
    if !has_standard_streams() {
        return write_status(&mut desk.faults());
    }
    let words = match words(desk.rt) {
        Ok(words) => words,
        Err(error) => return unread_status(&error, &mut desk.faults()),
    };
    match parse(desk.alloc(), &words) {
        Ok((config, task)) => desk.status(carry_out(desk, config, task)),
        Err(error) => refused_status(desk.rt, &error, &mut desk.faults()),
    }
}

// Returns the words of the command line; the first is the program's name.
fn words(rt: &HostRuntime) -> io::Result<Vec<String>> {
    Ok(env::args(rt)?.collect(rt.alloc())?)
}

// Does a task by the configuration file at a path.
fn carry_out(desk: Desk<'_>, config: &str, task: Task<'_>) -> Result<(), Stop> {
    match task {
        Task::Check(checked) => checking::check(desk, config, checked),
        Task::List(Some(path), listing) => customers::list_file(desk, path, listing),
        Task::List(None, listing) => customers::list(&Clerk::new(desk, config)?, listing),
        Task::Compare => customers::compare(&Clerk::new(desk, config)?),
        Task::Explain(word, from) => explaining::explain(&Clerk::new(desk, config)?, word, from),
        Task::Door(place, rate) => door::print_door(&Clerk::new(desk, config)?, place, rate),
        Task::Change(request) => changing::make_change(&Clerk::new(desk, config)?, &request),
        Task::Apply(application) => applying::apply(&Clerk::new(desk, config)?, &application),
        Task::Export(path, keys) => applying::export(&Clerk::new(desk, config)?, path, keys),
        Task::Fold(dry_run) => applying::fold_commands(&Clerk::new(desk, config)?, dry_run),
    }
}
