//! The assembly of the daemon, run over parts that lie in memory for a year of events, and judged by what `Service::run` gives to the
//! same events. Once the clock is set back by a day; and of the calls for each file that is read or written anew, one in 37 fails. It is proved that this is what the model says. The program prints how many turns and replies there were, what lines of
//! commands were answered, and that nothing differs; where something does, it says what, and ends with another status.
//!
//! What it has to print was reckoned by hand from `year.rt` and `commands.rt`.
#![tactic(auto)]

mod asking;
mod commands;
mod files;
mod host;
mod judging;
mod running;
mod script;
mod wire;
mod year;

use files::{ANSWERS, CUSTOMERS, Disk, LOG, STATISTICS};
use judging::{Expected, model_of};
use running::{Found, run};
use std::process::ExitCode;
use std::test::Fail;
use year::year;

fn main(rt: HostRuntime) -> Result<ExitCode, Fail> {
    let alloc = rt.alloc();
    let disk = Disk::new(alloc);
    let script = year(alloc)?;
    let lines = script.given.lines.len() as u64;
    let expected = model_of(alloc, &script)?;
    let found = run(alloc, &disk, script, &expected)?;
    let answers = disk.text(ANSWERS)?;
    let sent = expected.sent();
    println!(rt;
        "{} turns, {} dropped as stale",
        expected.turns, found.stale
    )?;
    println!(rt; "{sent} replies sent, {} not sent", expected.not_sent)?;
    println!(rt; "{answers}{lines} lines applied")?;
    show_files(&rt, &disk)?;
    if !disk.have_all_failed() {
        println!(rt; "different: a file had no failed call")?;
        return Ok(ExitCode::FAILURE);
    }
    if let Some(what) = difference(&expected, &found, answers.as_bytes(), lines) {
        println!(rt; "different: {what}")?;
        return Ok(ExitCode::FAILURE);
    }
    println!(rt; "no difference")?;
    Ok(ExitCode::SUCCESS)
}

// Prints how many lines of the log tell of commands and of stale datagrams, how many customers their file has, and how many lines of
// commands are applied by the statistics.
fn show_files(rt: &HostRuntime, disk: &Disk) -> Result<(), Fail> {
    let log = disk.text(LOG)?;
    let of_commands = lines_from(log.as_str(), "commands: line ");
    let of_stale = lines_from(log.as_str(), "stale: 3 datagrams dropped");
    println!(rt; "the log: {of_commands} lines of commands, {of_stale} of stale datagrams")?;
    let customers = disk.text(CUSTOMERS)?;
    println!(rt; "customers: {}", lines_from(customers.as_str(), "{"))?;
    let statistics = disk.text(STATISTICS)?;
    let applied = lines_from(statistics.as_str(), "labntp_commands_lines 27");
    println!(rt; "statistics of 27 lines: {applied}")?;
    Ok(())
}

// How many lines of a text begin so.
fn lines_from(text: &str, start: &str) -> usize {
    text.lines().filter(|line| line.starts_with(start)).count()
}

// What is found to be different from what is expected, if anything is.
fn difference(
    expected: &Expected,
    found: &Found,
    answers: &[u8],
    lines: u64,
) -> Option<&'static str> {
    if !found.are_replies_right {
        return Some("replies");
    }
    if answers != expected.answers.as_slice() {
        return Some("answers to commands");
    }
    if found.applied != lines {
        return Some("lines applied");
    }
    if found.counts != expected.counts {
        return Some("counts");
    }
    None
}
