//! Calls that take memory, with each allocation that they ask for refused in turn until none is refused: they tell that
//! memory was wanted, and nothing else, or do all that they are to do. `read_register`, `read_reference` and
//! `load_register` take the global allocator alone, so nothing can be refused them here; `tests/refused_memory` does that.

use crate::servers::refused_calls::{
    answer_refused, event_refused, replay_refused, run_refused, slots_refused, wire_refused,
};
use crate::servers::refused_enrolments::{again_refused, first_refused, line_refused};
use crate::servers::refused_rollovers::rollover_refused;
use crate::servers::registers::{next_refused, revoked_refused};
use ntp_service::Refusal;
use std::alloc::Global;
use std::process::Abort;
use std::test::Fail;
use test_support::Refusing;

// More allocations than any call here asks for.
const MOST: u64 = 1000;

/// A call that takes memory.
#[derive(Clone, Copy, Debug)]
pub(crate) enum Call {
    Slots,
    Event,
    Answer,
    Wire,
    Run,
    Replay,
    /// Enrolments of a commands file.
    Lines,
    /// Enrolments: of a first customer, of a revoked one, and both in a register that is compared with plain maps.
    First,
    Again,
    Next { count: u8 },
    Revoked,
    /// A rollover among `count` customers.
    Rollover { count: u16, given: Given },
}

/// How a rollover is given: by a call, or by a line of a commands file.
#[derive(Clone, Copy, Debug)]
pub(crate) enum Given {
    Call,
    Line,
}

/// What was refused memory.
#[derive(Clone, Copy, Debug, PartialEq, Eq)]
pub(crate) enum Refused {
    Nothing,
    /// The call as a whole.
    Call,
    /// In a replay a line or its answer, or the event on a line.
    Line,
    Event,
    /// An enrolment or a rollover.
    Command,
}

// The calls, each with the kinds of what it is refused in turn.
const CALLS: [(Call, &[Refused]); 13] = [
    (Call::Slots, &[Refused::Call]),
    (Call::Event, &[Refused::Call]),
    (Call::Answer, &[Refused::Call]),
    (Call::Wire, &[Refused::Call]),
    (Call::Run, &[Refused::Call, Refused::Command]),
    (
        Call::Replay,
        &[Refused::Line, Refused::Event, Refused::Command],
    ),
    (Call::Lines, &[Refused::Command]),
    (Call::First, &[Refused::Command]),
    (Call::Again, &[Refused::Command]),
    (Call::Next { count: 0 }, &[Refused::Command]),
    (Call::Next { count: 1 }, &[Refused::Command]),
    (Call::Next { count: 9 }, &[Refused::Command]),
    (Call::Revoked, &[Refused::Command]),
];

/// What was refused, where an enrolment or a rollover has this end.
pub(crate) fn command_refused(
    rt: &impl Abort,
    memory: &Refusing<Global>,
    end: Result<(), Refusal>,
) -> Refused {
    let (refused, wanted) = if memory.refused() == 0 {
        (Refused::Nothing, Ok(()))
    } else {
        (Refused::Command, Err(Refusal::NoMemory))
    };
    assert!(rt; end == wanted);
    refused
}

// Makes a call while the nth allocation is refused. Nothing but what was refused is missing from what it gives.
fn refused_in(rt: &impl Abort, alloc: Global, call: Call, n: u64) -> Result<Refused, Fail> {
    match call {
        Call::Slots => Ok(slots_refused(rt, alloc, n)),
        Call::Event => event_refused(rt, alloc, n),
        Call::Answer => answer_refused(rt, alloc, n),
        Call::Wire => wire_refused(rt, alloc, n),
        Call::Run => run_refused(rt, alloc, n),
        Call::Replay => Ok(replay_refused(rt, alloc, n)),
        Call::Lines => line_refused(rt, alloc, n),
        Call::First => first_refused(rt, alloc, n),
        Call::Again => again_refused(rt, alloc, n),
        Call::Next { count } => next_refused(rt, alloc, count, n),
        Call::Revoked => revoked_refused(rt, alloc, n),
        Call::Rollover { count, given } => rollover_refused(rt, alloc, count, given, n),
    }
}

/// Makes a call with the first allocation refused, then with the second, and so on, until nothing was refused. What was,
/// in that order.
pub(crate) fn refusals(rt: &impl Abort, alloc: Global, call: Call) -> Result<Vec<Refused>, Fail> {
    let mut seen = Vec::new(alloc);
    for n in 1..=MOST {
        match refused_in(rt, alloc, call, n)? {
            Refused::Nothing => return Ok(seen),
            refused => seen.push(refused)?,
        }
    }
    Err(Fail::from("a call never came to its end"))
}

#[test]
fn each_call_tells_what_was_refused(rt: HostRuntime) -> Result<(), Fail> {
    for (call, kinds) in CALLS {
        let seen = refusals(&rt, rt.alloc(), call)?;
        for kind in kinds {
            assert!(rt; seen.contains(kind), "{call:?}: {kind:?}");
        }
    }
    Ok(())
}
