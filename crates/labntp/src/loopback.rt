//! A server and a client meet in this process.
ghost use Rattle.std.specs.Prelude.{◌≡◌};
ghost use Rattle.labntp_jobs.specs.Taken.{HasMet};

use labntp_jobs::{LoopbackFault, meet};
use ntp_admin::{Status, memory_status, socket_status, write_status};
use std::alloc::Allocator;
use std::io::Write;
use std::net::Net;
use std::time::Clock;

/// Lets a server and a client meet `turns` times, and writes a word to `out` for what the client took each time.
/// Gives the exit status; a fault is told in one line to `faults`, where a failed write is passed over.
pub fn loopback_status<R: Net + Clock, A: Allocator + Copy, W: Write, F: Write>(
    rt: &R,
    alloc: A,
    turns: u32,
    out: &mut W,
    faults: &mut F,
) -> Status
    ensures { result ≡ Status.Done → HasMet turns (W.contents out.old) (W.contents out.new) }
{
    match meet(rt, alloc, turns, out) {
        Ok(()) => Status::Done,
        Err(LoopbackFault::NoMemory) => memory_status(faults),
        Err(LoopbackFault::Socket) => socket_status(faults),
        Err(LoopbackFault::Write) => write_status(faults),
    }
}
