//! The small programs of tests in one. The first word says which:
//!
//! - `host`: what libraries make of clocks, files, receipts and memory that are made up
//! - `loading`: what the readers of a register file answer where memory is refused
//! - `examples NAME..`: the worked examples with these names
//! - `all NAME..`: these three one after another
//!
//! It ends with status 2 where the first word is none of these.
#![tactic(auto)]

mod examples;
mod host;
mod loading;
mod program;

use program::Program;
use std::io;
use std::process::ExitCode;

fn main(rt: HostRuntime) -> io::Result<ExitCode> {
    match Program::asked_for(&rt) {
        Some(Program::Host) => host::show(&rt)?,
        Some(Program::Loading) => return loading::show(&rt),
        Some(Program::Examples) => examples::show(&rt)?,
        Some(Program::All) => return show_all(&rt),
        None => return Ok(ExitCode::from(2)),
    }
    Ok(ExitCode::SUCCESS)
}

// Runs all of them. The status is that of `loading`, the only one that has another than 0.
fn show_all(rt: &HostRuntime) -> io::Result<ExitCode> {
    host::show(rt)?;
    let status = loading::show(rt)?;
    examples::show(rt)?;
    Ok(status)
}
