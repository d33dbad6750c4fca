//! What `ntp_host` and `labntp_jobs` make of clocks, files, receipts and memory that are made up: a program, since no clause says it and
//! no host shows it.

mod clocks;
mod counting;
mod looks;
mod refused;

use std::io;

/// Prints the moments of four clocks, what a source gives that is asked once in a thousandth of a second, how many calls the looks at a
/// commands file take, and what comes of refused memory.
pub(crate) fn show(rt: &HostRuntime) -> io::Result<()> {
    clocks::show(rt)?;
    looks::show_paced(rt)?;
    looks::show_calls(rt)?;
    refused::show(rt)
}
