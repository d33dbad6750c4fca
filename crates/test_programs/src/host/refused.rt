//! A server and a client that meet where memory is refused.

use labntp_jobs::{LoopbackFault, meet};
use std::io::{self, Write};
use test_support::Refusing;

// More allocations than two meetings ask for.
const MOST: u64 = 200;

/// Lets them meet twice with the first allocation refused, then with the second, and so on, until none is. Prints whether each refusal
/// was told before a word was written, and the words of the last time.
pub fn show(rt: &HostRuntime) -> io::Result<()> {
    let mut is_told = false;
    for n in 1..=MOST {
        let memory = Refusing::new(rt.alloc());
        memory.refuse_nth(n);
        let mut words = Vec::new(rt.alloc());
        let met = meet(rt, &memory, 2, &mut words);
        if memory.refused() == 0 {
            println!(rt; "refused in turn, and told: {is_told}")?;
            println!(rt; "met: {}", met == Ok(()))?;
            return rt.stdout().write_all(&words);
        }
        is_told = met == Err(LoopbackFault::NoMemory) && words.is_empty();
        if !is_told {
            break;
        }
    }
    println!(rt; "allocations that were refused and not told, or that never end")
}
