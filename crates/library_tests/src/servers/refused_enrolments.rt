//! Enrolments while one allocation is refused: a refused one leaves the address, the number and all counts as they were.

use crate::servers::refused::{Refused, command_refused};
use crate::servers::scant_service::{ScantService, enrol, enrol_answer};
use ntp_admin::Command;
use ntp_reply::{Answer, Reason};
use ntp_service::{Address, Service};
use std::alloc::{Allocator, Global};
use std::process::Abort;
use std::test::Fail;
use test_support::{CUSTOMER, Refusing, answered, moment, ordered, reference};

const NEIGHBOUR: Address = Address([192, 0, 2, 20]);

/// Enrols the first customer of a service. Where that was refused, the customer is unknown, and a neighbour can be
/// enrolled with the number.
pub(crate) fn first_refused(rt: &impl Abort, alloc: Global, n: u64) -> Result<Refused, Fail> {
    let memory = Refusing::new(alloc);
    let mut service = Service::new(&memory);
    memory.refuse_nth(n);
    let end = enrol_answer(&mut service, CUSTOMER, 7)?;
    memory.refuse_none();
    let is_enrolled = end.is_ok();
    assert!(rt; service.holder(7).is_some() == is_enrolled);
    assert!(rt; service.customer(CUSTOMER).is_some() == is_enrolled);
    assert!(rt; enrol_answer(&mut service, NEIGHBOUR, 7)?.is_err() == is_enrolled);
    Ok(command_refused(rt, &memory, end))
}

// A query without a MAC.
fn unsigned_query() -> [u8; 48] {
    let mut query = [0; 48];
    query[0] = 0x23;
    query
}

// Whether the customer is told DENY to a query without a MAC, always in one window. Else that was told too often.
fn is_denied<A: Allocator + Copy>(rt: &impl Abort, service: &mut Service<A>) -> Result<bool, Fail> {
    let receipt = moment(0xec00_0010_9000_0000);
    let reference = reference()?;
    let answer = answered(service, receipt, &reference, &unsigned_query());
    let is_denied = matches!(&answer, Answer::Deny(_));
    assert!(rt; is_denied || answer == Answer::Silent(Reason::Muted));
    Ok(is_denied)
}

// Revokes the customer, enrols nine others, whose numbers fill what room there is, and has the customer refused as often
// as it is told so in one window.
fn revoke<A: Allocator + Copy>(rt: &impl Abort, service: &mut Service<A>) -> Result<(), Fail> {
    enrol(service, CUSTOMER, 7)?;
    ordered(service, &Command::Revoke { address: CUSTOMER })?;
    for other in 0..9 {
        enrol(service, Address([10, 0, 0, other]), 100 + u16::from(other))?;
    }
    for _ in 0..4 {
        assert!(rt; is_denied(rt, service)?);
    }
    Ok(())
}

// Enrols the revoked customer again while the nth allocation is refused. Where that was refused, a further refusal is still one too
// many; else none is counted.
fn enrol_again(rt: &impl Abort, it: &mut ScantService, n: u64) -> Result<Refused, Fail> {
    revoke(rt, &mut it.service)?;
    let memory = it.service.allocator();
    memory.refuse_nth(n);
    let end = enrol_answer(&mut it.service, CUSTOMER, 7)?;
    memory.refuse_none();
    assert!(rt; is_denied(rt, &mut it.service)? == end.is_ok());
    Ok(command_refused(rt, memory, end))
}

/// Enrols the revoked customer again.
pub(crate) fn again_refused(rt: &impl Abort, alloc: Global, n: u64) -> Result<Refused, Fail> {
    let memory = Refusing::new(alloc);
    enrol_again(rt, &mut ScantService::new(&memory, alloc), n)
}

// Two enrolments.
const COMMANDS: &[u8] =
    b"enrol 192.0.2.10 7 md5 6b6579 10\nenrol 192.0.2.20 8 sha1 6f74686572 10\n";

// Applies two enrolments of a commands file. A refused line is told and left its address free, and the other is carried out.
fn apply_enrolments(rt: &impl Abort, it: &mut ScantService, n: u64) -> Result<Refused, Fail> {
    it.apply_twice(rt, COMMANDS, 2, n);
    let first = enrol_answer(&mut it.service, CUSTOMER, 7)?.is_ok();
    let second = enrol_answer(&mut it.service, NEIGHBOUR, 8)?.is_ok();
    let (fault, refused) = match (first, second) {
        (true, false) => ("commands: line 1: no-memory\n", Refused::Command),
        (false, true) => ("commands: line 2: no-memory\n", Refused::Command),
        (false, false) => ("", Refused::Nothing),
        (true, true) => ("no line was carried out", Refused::Call),
    };
    assert!(rt; it.is_told(fault));
    assert!(rt; (refused == Refused::Nothing) != it.is_refused());
    Ok(refused)
}

/// Applies two enrolments of a commands file.
pub(crate) fn line_refused(rt: &impl Abort, alloc: Global, n: u64) -> Result<Refused, Fail> {
    let memory = Refusing::new(alloc);
    apply_enrolments(rt, &mut ScantService::new(&memory, alloc), n)
}
