//! The worked examples in one process: it is given names, and reads NAME.script and NAME.answers of each. It tells whether
//! `Service::run` answers the script's events as they are worked, and whether a service does, one event after another, where each
//! allocation is refused to all but enrolments and rollovers, and no other asks for any.

mod example;
mod memory;

use example::Example;
use std::{env, io};

/// Prints whether the examples hold that the words behind the first name.
pub(crate) fn show(rt: &HostRuntime) -> io::Result<()> {
    for name in env::args(rt)?.skip(2) {
        let example = Example::read(rt, name.as_str())?;
        let run = word(example.is_run(rt.alloc()));
        let refused = word(memory::is_told_without(rt.alloc(), &example));
        println!(rt; "{name}: run {run}, without memory {refused}")?;
    }
    Ok(())
}

// Whether answers are as they are worked, in a word.
fn word(is_right: Option<bool>) -> &'static str {
    match is_right {
        Some(true) => "right",
        _ => "wrong",
    }
}
