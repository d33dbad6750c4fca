//! Services beside plain maps: ten thousand customers, and enrolments whose memory is refused.

use crate::servers::refused::{Refused, command_refused};
use crate::servers::twin::{Twin, address_at};
use std::alloc::{Allocator, Global};
use std::process::Abort;
use std::test::Fail;
use test_support::Refusing;

// Enrols an address with a number, by which both are then told.
fn enrol_and_compare(
    rt: &impl Abort,
    twin: &mut Twin<Global>,
    place: u16,
    number: u16,
) -> Result<(), Fail> {
    assert!(rt; twin.enrol(address_at(place), number)?.is_ok());
    assert!(rt; twin.is_told(address_at(place), number));
    Ok(())
}

// Revokes an address with a number, as both are then told.
fn revoke_and_compare(
    rt: &impl Abort,
    twin: &mut Twin<Global>,
    place: u16,
    number: u16,
) -> Result<(), Fail> {
    assert!(rt; twin.revoke(address_at(place), number)?.is_ok());
    assert!(rt; twin.is_told(address_at(place), number));
    Ok(())
}

// Enrols ten thousand addresses, revokes every other one, and enrols these again, each with another number.
fn ten_thousand(rt: &impl Abort, twin: &mut Twin<Global>) -> Result<(), Fail> {
    for place in 0..10_000u16 {
        enrol_and_compare(rt, twin, place, place + 1)?;
    }
    for half in 0..5_000u16 {
        revoke_and_compare(rt, twin, 2 * half, 2 * half + 1)?;
    }
    for half in 0..5_000u16 {
        let place = 2 * half;
        enrol_and_compare(rt, twin, place, place + 30_000)?;
        assert!(rt; twin.is_told(address_at(place), place + 1));
    }
    Ok(())
}

#[test]
fn ten_thousand_customers_are_told_as_by_plain_maps(rt: HostRuntime) -> Result<(), Fail> {
    let mut twin = Twin::new(rt.alloc(), rt.alloc())?;
    let end = ten_thousand(&rt, &mut twin);
    assert!(rt; twin.are_told(10_001));
    end
}

// Enrols an address while the nth allocation is refused. Where one was, nothing changed, and the same enrolment then
// succeeds.
fn place_refused(
    rt: &impl Abort,
    memory: &Refusing<Global>,
    twin: &mut Twin<&Refusing<Global>>,
    place: u8,
    n: u64,
) -> Result<Refused, Fail> {
    let place = u16::from(place);
    memory.refuse_nth(n);
    let end = twin.enrol(address_at(place), place + 300)?;
    memory.refuse_none();
    assert!(rt; twin.are_told(100));
    let refused = command_refused(rt, memory, end);
    if refused == Refused::Command {
        assert!(rt; twin.enrol(address_at(place), place + 300)?.is_ok());
        assert!(rt; twin.are_told(100));
    }
    Ok(refused)
}

/// Enrols a customer behind `count` others.
pub(crate) fn next_refused(
    rt: &impl Abort,
    alloc: Global,
    count: u8,
    n: u64,
) -> Result<Refused, Fail> {
    let memory = Refusing::new(alloc);
    let mut twin = Twin::with_first(&memory, alloc, u16::from(count))?;
    place_refused(rt, &memory, &mut twin, count, n)
}

/// Revokes the first of nine, has another one take its place among the holders, and enrols the first again: that takes
/// memory.
pub(crate) fn revoked_refused(rt: &impl Abort, alloc: Global, n: u64) -> Result<Refused, Fail> {
    let memory = Refusing::new(alloc);
    let mut twin = Twin::with_first(&memory, alloc, 9)?;
    revoke_first(&mut twin)?;
    place_refused(rt, &memory, &mut twin, 0, n)
}

// Revokes the first of nine, and has another one take its place among the holders.
fn revoke_first<A: Allocator + Copy>(twin: &mut Twin<A>) -> Result<(), Fail> {
    twin.revoke(address_at(0), 1)??;
    twin.enrol(address_at(9), 10)??;
    Ok(())
}
