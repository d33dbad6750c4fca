//! What the readers of a register file answer where memory is refused: to be run with each allocation refused in turn, as
//! `tests/refused_memory` does. Of each call it tells whether it answered as it has to, or told want of memory.

mod calls;
mod judging;

use calls::{TEXTS, judgements};
use judging::Judged;
use std::io;
use std::process::ExitCode;

/// Prints what each call did. The status is 4 where one told want of memory and all others answered as they have to, and else 0.
pub(crate) fn show(rt: &HostRuntime) -> io::Result<ExitCode> {
    let mut all = Judged::Right;
    for text in TEXTS {
        for (call, judged) in judgements(rt.alloc(), &text) {
            println!(rt; "{call} {}: {}", text.name, judged.word())?;
            all = all.worse(judged);
        }
    }
    Ok(ExitCode::from(match all {
        Judged::Memory => 4,
        Judged::Right | Judged::Wrong => 0,
    }))
}
