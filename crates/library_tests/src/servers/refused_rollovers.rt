//! Rollovers while one allocation is refused, in registers of 1 to 64 customers, so that in some the map of numbers has to
//! grow: a refused rollover changes nothing. And retirements, which ask for no memory.

use crate::servers::refused::{Call, Given, Refused, command_refused, refusals};
use crate::servers::scant_service::{ScantService, enrol};
use crate::servers::twin::{Twin, address_at};
use ntp_admin::parse_command;
use ntp_service::{Refusal, Service};
use std::alloc::{Allocator, Global};
use std::process::Abort;
use std::test::Fail;
use test_support::{Refusing, ordered};

// How many customers there are at most.
const MOST_CUSTOMERS: u16 = 64;

// The number that is rolled over to. Nobody holds it before, and none above it.
const NEW: u16 = 100;

// Whether it is told as it is to be who holds a number, and which of the first customers has a key with it.
fn is_told_of<A: Allocator + Copy>(twin: &Twin<A>, count: u16, number: u16) -> bool {
    twin.is_held(number) && (0..count).all(|place| twin.has_own_key(address_at(place), number))
}

// The same of each number, and what the first customers have.
fn are_told<A: Allocator + Copy>(twin: &Twin<A>, count: u16) -> bool {
    twin.are_first_told(count) && (0..=NEW).all(|number| is_told_of(twin, count, number))
}

/// Rolls the first of `count` customers over.
pub(crate) fn rollover_refused(
    rt: &impl Abort,
    alloc: Global,
    count: u16,
    given: Given,
    n: u64,
) -> Result<Refused, Fail> {
    let memory = Refusing::new(alloc);
    match given {
        Given::Call => {
            let mut twin = Twin::with_first(&memory, alloc, count)?;
            roll_first(rt, &memory, &mut twin, count, n)
        }
        Given::Line => {
            let mut it = ScantService::new(&memory, alloc);
            roll_first_by_line(rt, &mut it, count, n)
        }
    }
}

// Rolls the first of the customers of a register over while the nth allocation is refused. Where that was refused, nothing changed, and
// the same rollover succeeds.
fn roll_first(
    rt: &impl Abort,
    memory: &Refusing<Global>,
    twin: &mut Twin<&Refusing<Global>>,
    count: u16,
    n: u64,
) -> Result<Refused, Fail> {
    memory.refuse_nth(n);
    let end = twin.rollover(address_at(0), NEW)?;
    memory.refuse_none();
    assert!(rt; are_told(twin, count));
    let refused = command_refused(rt, memory, end);
    if refused == Refused::Command {
        assert!(rt; twin.rollover(address_at(0), NEW)?.is_ok());
        assert!(rt; are_told(twin, count));
    }
    Ok(refused)
}

// A commands file that rolls the first customer over.
const ROLLOVER: &[u8] = b"rollover 10.0.0.1 100 md5 6b6579\n";

// Enrols `count` customers.
fn enrol_first<A: Allocator + Copy>(service: &mut Service<A>, count: u16) -> Result<(), Fail> {
    for place in 0..count {
        enrol(service, address_at(place), place.saturating_add(1))?;
    }
    Ok(())
}

// Applies that file. Where the rollover was refused, it is told once.
fn roll_first_by_line(
    rt: &impl Abort,
    it: &mut ScantService,
    count: u16,
    n: u64,
) -> Result<Refused, Fail> {
    let retirement = parse_command("retire 10.0.0.1 100")?;
    enrol_first(&mut it.service, count)?;
    it.apply_twice(rt, ROLLOVER, 1, n);
    let end = ordered(&mut it.service, &retirement);
    let (refused, fault, wanted) = if it.is_refused() {
        let fault = "commands: line 1: no-memory\n";
        (Refused::Command, fault, Err(Refusal::NotHeld))
    } else {
        (Refused::Nothing, "", Ok(()))
    };
    assert!(rt; it.is_told(fault));
    assert!(rt; end == wanted);
    Ok(refused)
}

// What is refused in turn of a rollover that is given so.
fn rolled_over(
    rt: &impl Abort,
    alloc: Global,
    count: u16,
    given: Given,
) -> Result<Vec<Refused>, Fail> {
    refusals(rt, alloc, Call::Rollover { count, given })
}

#[test]
fn a_refused_rollover_changes_nothing(rt: HostRuntime) -> Result<(), Fail> {
    let mut growing = 0u16;
    for count in 1..=MOST_CUSTOMERS {
        let refused = rolled_over(&rt, rt.alloc(), count, Given::Call)?;
        let lines = rolled_over(&rt, rt.alloc(), count, Given::Line)?;
        assert!(rt; lines.len() == refused.len());
        growing = growing.saturating_add(u16::from(!refused.is_empty()));
    }
    assert!(rt; 0 < growing && growing < MOST_CUSTOMERS);
    Ok(())
}

// Retires `number` of the first customer, which has two, while memory is refused.
fn retire_without_memory(
    rt: &impl Abort,
    memory: &Refusing<Global>,
    twin: &mut Twin<&Refusing<Global>>,
    number: u16,
    other: u16,
) -> Result<(), Fail> {
    assert!(rt; twin.rollover(address_at(0), NEW)?.is_ok());
    let before = memory.calls();
    memory.refuse_all();
    assert!(rt; twin.retire(address_at(0), number, other)?.is_ok());
    assert!(rt; memory.calls() == before);
    Ok(())
}

#[test]
fn a_retirement_asks_for_no_memory(rt: HostRuntime) -> Result<(), Fail> {
    for count in 1..=MOST_CUSTOMERS {
        for (number, other) in [(1, NEW), (NEW, 1)] {
            let memory = Refusing::new(rt.alloc());
            let mut twin = Twin::with_first(&memory, rt.alloc(), count)?;
            let end = retire_without_memory(&rt, &memory, &mut twin, number, other);
            assert!(rt; are_told(&twin, count));
            end?;
        }
    }
    Ok(())
}
