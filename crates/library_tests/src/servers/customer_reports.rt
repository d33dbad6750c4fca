//! What is reported of customers, and the line that is written of one.

use ntp_admin::parse_command;
use ntp_mac::Reply;
use ntp_packet::{Header, Moment, Stamp};
use ntp_reply::{Answer, Reason, SignedReply};
use ntp_reports::{CustomerCounts, Kind, customer_line};
use ntp_service::{Address, Arrival, Command, LineOutcome, Sending, Service, TurnOutcome};
use std::alloc::{Allocator, Global};
use std::process::Abort;
use std::test::Fail;
use test_support::{CUSTOMER, Refusing, moment, ordered};

// An address that was never enrolled.
const STRANGER: Address = Address([192, 0, 2, 99]);

// The line of the customer after the two commands and three turns below. The time is that of Python's
// `0xec00000000000000 / 2**32 - 2208988800`.
const LINE: &str =
    r#"{"address":"192.0.2.10","state":"enrolled","keys":[{"number":7,"algorithm":"md5","octets":3,"last_signed":"1750434176.000000000"},{"number":8,"algorithm":"sha1","octets":3,"last_signed":null}],"budget":10,"line":3,"answers":{"basic":1,"interleaved":0,"rate":1,"deny":1,"nak":0,"short":0,"long":0,"field-short":0,"field-unaligned":0,"field-past-end":0,"rest":0,"version":0,"mode":0,"bare":0,"muted":0,"over-budget":0}}
"#;

const REVOKED_LINE: &str =
    r#"{"address":"192.0.2.10","state":"revoked","keys":[],"budget":null,"line":3,"answers":{"basic":1,"interleaved":0,"rate":1,"deny":1,"nak":0,"short":0,"long":0,"field-short":0,"field-unaligned":0,"field-past-end":0,"rest":0,"version":0,"mode":0,"bare":0,"muted":0,"over-budget":0}}
"#;

// A turn with a datagram from an address.
fn turn(address: Address, receipt: Moment, answer: Answer) -> TurnOutcome {
    TurnOutcome::Answered {
        arrival: Arrival {
            address,
            port: 123,
            length: 68,
            receipt,
        },
        answer,
        sending: Sending::Sent,
    }
}

// A reply that is signed with the key of a number.
fn signed(number: u16) -> SignedReply {
    SignedReply {
        octets: Reply::from_header(&Header::blank(4, 4)),
        number,
        is_interleaved: false,
    }
}

// The time, signed with the key of a number.
fn time(number: u16) -> Answer {
    Answer::Time {
        reply: signed(number),
        saved: Stamp(1),
    }
}

// What a service answers to a command.
fn outcome<A: Allocator + Copy>(service: &mut Service<A>, command: &Command) -> LineOutcome {
    match ordered(service, command) {
        Ok(()) => LineOutcome::Done,
        Err(refusal) => LineOutcome::Refused(refusal),
    }
}

// A line of a commands file that a service carries out and is reported.
fn carry_out<A: Allocator + Copy>(
    service: &mut Service<A>,
    counts: &mut CustomerCounts<A>,
    number: u64,
    line: &str,
) {
    match parse_command(line) {
        Ok(command) => counts.line(number, Some(&command), outcome(service, &command)),
        Err(fault) => counts.line(number, None, LineOutcome::Faulty(fault)),
    }
}

// Lines with their numbers. Of those that are refused, and of what is no command at all, nothing is reported.
const LINES: [(u64, &str); 5] = [
    (3, "enrol 192.0.2.10 7 md5 6b6579 10"),
    (4, "rollover 192.0.2.10 8 sha1 6b6579"),
    (5, "enrol 192.0.2.10 9 md5 6b6579 10"),
    (6, "enroll 192.0.2.10 9 md5 6b6579 10"),
    (7, "retire 192.0.2.99 1"),
];

// Whether the customer is reported of, and nobody else: one answer with the time, which the older key signed then.
fn is_reported<A: Allocator + Copy>(counts: &CustomerCounts<A>, signed: Moment) -> bool {
    let Some(report) = counts.report(CUSTOMER) else {
        return false;
    };
    report.last_signed(7) == Some(signed)
        && report.last_signed(8).is_none()
        && report.counts().count(Kind::Basic) == 1
        && counts.report(STRANGER).is_none()
        && counts.len() == 1
}

// What comes of those lines, of turns that are told without memory, and of a revocation.
fn reports<'a>(
    rt: &impl Abort,
    alloc: Global,
    memory: &'a Refusing<Global>,
    service: &mut Service<&'a Refusing<Global>>,
    counts: &mut CustomerCounts<&'a Refusing<Global>>,
) -> Result<(), Fail> {
    for (number, line) in LINES {
        carry_out(service, counts, number, line);
    }
    let signed = moment(0xec00_0000_0000_0000);
    memory.refuse_all();
    hear(counts, signed);
    memory.refuse_none();
    assert!(rt; memory.refused() == 0);
    assert!(rt; is_reported(counts, signed));
    assert_written(rt, alloc, service, counts, LINE)?;
    carry_out(service, counts, 8, "revoke 192.0.2.10");
    assert_written(rt, alloc, service, counts, REVOKED_LINE)?;
    assert!(rt; !counts.has_missed());
    Ok(())
}

#[test]
fn a_customer_is_reported_of(rt: HostRuntime) -> Result<(), Fail> {
    let memory = Refusing::new(rt.alloc());
    let mut service = Service::new(&memory);
    let mut counts = CustomerCounts::new(&memory);
    reports(&rt, rt.alloc(), &memory, &mut service, &mut counts)
}

// Tells of four datagrams, the last a stranger's, and of a turn in which nothing could be received.
fn hear<A: Allocator + Copy>(counts: &mut CustomerCounts<A>, first: Moment) {
    counts.turn(&turn(CUSTOMER, moment(1), Answer::Rate(signed(7))));
    counts.turn(&turn(CUSTOMER, first, time(7)));
    let denial = signed(8).octets;
    counts.turn(&turn(CUSTOMER, moment(2), Answer::Deny(denial)));
    counts.turn(&turn(STRANGER, moment(3), Answer::Silent(Reason::Unregistered)));
    counts.turn(&TurnOutcome::NothingReceived);
}

// This is the line of the customer.
fn assert_written<A: Allocator + Copy>(
    rt: &impl Abort,
    alloc: Global,
    service: &Service<A>,
    counts: &CustomerCounts<A>,
    line: &str,
) -> Result<(), Fail> {
    let (address, report) = counts.nth(0).ok_or("nothing is reported")?;
    let customer = service.customer(*address).ok_or("no such customer")?;
    let octets = customer_line(alloc, *address, customer, report)?;
    assert_eq!(rt; str::from_utf8(&octets), Ok(line));
    Ok(())
}

#[test]
fn a_report_that_finds_no_memory_is_missed(rt: HostRuntime) -> Result<(), Fail> {
    let memory = Refusing::new(rt.alloc());
    let mut counts = CustomerCounts::new(&memory);
    memory.refuse_all();
    let command = parse_command("enrol 192.0.2.10 7 md5 6b6579 10")?;
    counts.line(1, Some(&command), LineOutcome::Done);
    assert!(rt; counts.has_missed() && counts.report(CUSTOMER).is_none());
    Ok(())
}
