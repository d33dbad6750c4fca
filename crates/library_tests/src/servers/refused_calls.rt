//! Calls while one allocation is refused: those that change nothing, a run, and a replay.

use crate::servers::first_answers::{UNENROLLED_ANSWERS, are_first_answers};
use crate::servers::refused::Refused;
use labntp_jobs::{ReplayFaultKind, Watched, replay};
use ntp_admin::{Event, LineFault, NoMemory, parse_event, print_answer};
use ntp_customer::Slots;
use ntp_packet::Stamp;
use ntp_service::Service;
use std::alloc::{Allocator, Global};
use std::process::Abort;
use std::test::Fail;
use test_support::{
    ANSWERS, CUSTOMER, MemoryWire, Refusing, SCRIPT, Turn, events, moment, printed, run,
};

// What was refused a call that tells it by `NoMemory`, and else is right.
fn call_refused(
    rt: &impl Abort,
    memory: &Refusing<Global>,
    end: Result<bool, NoMemory>,
) -> Refused {
    if memory.refused() == 0 {
        assert!(rt; end == Ok(true));
        return Refused::Nothing;
    }
    assert!(rt; end == Err(NoMemory));
    Refused::Call
}

/// New slots are empty.
pub(crate) fn slots_refused(rt: &impl Abort, alloc: Global, n: u64) -> Refused {
    let memory = Refusing::new(alloc);
    memory.refuse_nth(n);
    let end = match Slots::new(&memory) {
        Ok(slots) => Ok(slots.find(Stamp(0)).is_none()),
        Err(NoMemory) => Err(NoMemory),
    };
    call_refused(rt, &memory, end)
}

/// The line of the exchange's first query is that event.
pub(crate) fn event_refused(rt: &impl Abort, alloc: Global, n: u64) -> Result<Refused, Fail> {
    let line = SCRIPT.lines().nth(1).ok_or("no query")?;
    let memory = Refusing::new(alloc);
    memory.refuse_nth(n);
    let end = match parse_event(&memory, line) {
        Ok(
            Event::Datagram {
                address,
                octets,
                ..
            },
        ) => { Ok(address == CUSTOMER && octets.as_slice().ends_with(b"\x0a\x52\x36")) }
        Err(LineFault::NoMemory) => Err(NoMemory),
        _ => Ok(false),
    };
    Ok(call_refused(rt, &memory, end))
}

// Whether a line is the second answer of the exchange.
fn is_second_answer(line: &str) -> bool {
    line.strip_suffix('\n') == ANSWERS.lines().nth(1)
}

/// The answer to that query is printed as it is worked.
pub(crate) fn answer_refused(rt: &impl Abort, alloc: Global, n: u64) -> Result<Refused, Fail> {
    let outcomes = Service::new(alloc).run(&events(alloc)?)?;
    let outcome = outcomes.get(1).ok_or("no answer")?;
    let memory = Refusing::new(alloc);
    memory.refuse_nth(n);
    let end = match print_answer(&memory, outcome) {
        Ok(line) => Ok(is_second_answer(line.as_str())),
        Err(NoMemory) => Err(NoMemory),
    };
    Ok(call_refused(rt, &memory, end))
}

/// A wire of one turn has sent nothing yet.
pub(crate) fn wire_refused(rt: &impl Abort, alloc: Global, n: u64) -> Result<Refused, Fail> {
    let memory = Refusing::new(alloc);
    let mut turns = Vec::new(&memory);
    turns.push(Turn {
        arrival: None,
        transmit: moment(0),
        departure: moment(0),
        sends: true,
    })?;
    memory.refuse_nth(n);
    let end = match MemoryWire::new(&memory, turns) {
        Ok(wire) => Ok(wire.sent().is_empty()),
        Err(NoMemory) => Err(NoMemory),
    };
    Ok(call_refused(rt, &memory, end))
}

// The lines of what a run is answered, where it was not refused as a whole.
fn lines_of_run<A: Allocator + Copy>(
    alloc: Global,
    service: &mut Service<A>,
    events: &[Event<A>],
) -> Result<Option<String>, Fail> {
    match run(service, events) {
        Ok(outcomes) => Ok(Some(printed(alloc, &outcomes)?)),
        Err(NoMemory) => Ok(None),
    }
}

// Runs the exchange while the nth allocation is refused, and once more where that was refused as a whole.
fn run_exchange<'a>(
    rt: &impl Abort,
    memory: &'a Refusing<Global>,
    service: &mut Service<&'a Refusing<Global>>,
    events: &[Event<&'a Refusing<Global>>],
    alloc: Global,
    n: u64,
) -> Result<Refused, Fail> {
    memory.refuse_nth(n);
    let lines = lines_of_run(alloc, service, events)?;
    memory.refuse_none();
    let (lines, answers, refused) = match lines {
        None => (
            lines_of_run(alloc, service, events)?,
            ANSWERS,
            Refused::Call,
        ),
        Some(lines) if memory.refused() > 0 => {
            (Some(lines), UNENROLLED_ANSWERS, Refused::Command)
        }
        Some(lines) => (Some(lines), ANSWERS, Refused::Nothing),
    };
    assert!(rt; lines.as_deref() == Some(answers));
    Ok(refused)
}

/// A run that is refused as a whole leaves the service as before: the same events are then answered as the first ones.
pub(crate) fn run_refused(rt: &impl Abort, alloc: Global, n: u64) -> Result<Refused, Fail> {
    let memory = Refusing::new(alloc);
    let events = events(&memory)?;
    let mut service = Service::new(&memory);
    run_exchange(rt, &memory, &mut service, &events, alloc, n)
}

/// A replay that stops has answered the lines before, and one that goes on has been refused the enrolment alone.
pub(crate) fn replay_refused(rt: &impl Abort, alloc: Global, n: u64) -> Refused {
    let memory = Refusing::new(alloc);
    memory.refuse_nth(n);
    let mut reader = Watched::new(SCRIPT.as_bytes());
    let mut writer = Watched::new(Vec::new(alloc));
    let end = replay(&memory, &mut reader, &mut writer);
    let written = writer.into_inner();
    let Err(fault) = end else {
        let (answers, refused) = if memory.refused() > 0 {
            (UNENROLLED_ANSWERS, Refused::Command)
        } else {
            (ANSWERS, Refused::Nothing)
        };
        assert!(rt; written.as_slice() == answers.as_bytes());
        return refused;
    };
    are_first_answers(rt, &written, fault.line.saturating_sub(1));
    if fault.kind == ReplayFaultKind::NoMemory {
        return Refused::Line;
    }
    assert!(rt; fault.kind == ReplayFaultKind::Line(LineFault::NoMemory));
    Refused::Event
}
