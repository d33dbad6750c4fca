//! What no contract says of a server: the replies of its turns to the octet, where a turn has no datagram or a send fails; that
//! serving takes no memory; and a port about which nothing is known.

use crate::servers::failing_port::FailingPort;
use ntp_host::UdpPort;
use ntp_port::{Port, Sent, serve};
use ntp_reply::Reference;
use ntp_service::Service;
use std::alloc::{Allocator, Global};
use std::process::Abort;
use std::test::Fail;
use test_support::{
    CUSTOMER, MemoryWire, RECEIPTS, Refusing, Turn, enrolled_service, moment, queries, reference,
    replies, turn,
};

// The UDP ports of three turns.
const PORTS: [u16; 3] = [5001, 5002, 5003];

// The UDP port to which the send fails, and the replies that are sent to the others.
fn others() -> [(u16, [(u16, [u8; 68]); 2]); 3] {
    let [first, second, third, planned] = replies();
    [
        (5001, [(5002, second), (5003, third)]),
        (5002, [(5001, first), (5003, planned)]),
        (5003, [(5001, first), (5002, second)]),
    ]
}

// A port with three turns. The send to this UDP port fails.
fn port_of_three<A: Allocator + Copy>(
    alloc: A,
    failing: u16,
) -> Result<UdpPort<MemoryWire<A>>, Fail> {
    let mut turns = Vec::new(alloc);
    let queries = queries();
    for place in 0..3usize {
        let port = PORTS[place];
        let turn = turn(
            alloc,
            port,
            RECEIPTS[place],
            &queries[place],
            port != failing,
        )?;
        turns.push(turn)?;
    }
    Ok(UdpPort::new(MemoryWire::new(alloc, turns)?))
}

// A turn with no datagram.
fn empty_turn() -> Turn {
    Turn {
        arrival: None,
        transmit: moment(0),
        departure: moment(0),
        sends: true,
    }
}

// The arrivals, the replies sent and the departures noted in `turns` turns of a port with no failed call.
fn served<P: Port, A: Allocator + Copy>(
    rt: &impl Abort,
    port: &mut P,
    service: &mut Service<A>,
    reference: &Reference,
    turns: u32,
) -> [u32; 3] {
    assert!(rt; port.failures() == 0);
    let served = serve(port, service, reference, turns);
    [served.arrivals, served.sent, served.departed]
}

// Whether a reply was sent to the customer at a UDP port.
fn is_sent(sent: &Sent, port: u16, reply: &[u8]) -> bool {
    sent.address == CUSTOMER && sent.port == port && sent.reply.octets() == reply
}

// Whether these replies were sent, each to its UDP port, and no others.
fn are_sent(sent: &[Sent], expected: &[(u16, [u8; 68])]) -> bool {
    sent.len() == expected.len()
        && sent
            .iter()
            .zip(expected)
            .all(|(sent, (port, reply))| is_sent(sent, *port, reply))
}

// The same of two replies.
fn are_both_sent(sent: &[Sent], both: &[(u16, [u8; 68]); 2]) -> bool {
    are_sent(sent, both)
}

// A port with a turn that has a datagram, between two that have none.
fn one_of_three(alloc: Global) -> Result<UdpPort<MemoryWire>, Fail> {
    let mut turns = Vec::new(alloc);
    let [query, ..] = queries();
    turns.push(empty_turn())?;
    turns.push(turn(alloc, 5001, RECEIPTS[0], &query, true)?)?;
    turns.push(empty_turn())?;
    Ok(UdpPort::new(MemoryWire::new(alloc, turns)?))
}

#[test]
fn a_turn_without_a_datagram_is_no_event(rt: HostRuntime) -> Result<(), Fail> {
    let reference = reference()?;
    let mut port = one_of_three(rt.alloc())?;
    let mut service = enrolled_service(rt.alloc())?;
    let counts = served(&rt, &mut port, &mut service, &reference, 4);
    assert!(rt; counts == [1, 1, 1] && port.failures() == 3);
    let [reply, ..] = replies();
    assert!(rt; are_sent(port.wire.sent(), &[(5001, reply)]));
    Ok(())
}

#[test]
fn a_departure_is_the_middle_of_two_readings(rt: HostRuntime) -> Result<(), Fail> {
    let reference = reference()?;
    let mut port = port_of_three(rt.alloc(), 0)?;
    let mut service = enrolled_service(rt.alloc())?;
    let counts = served(&rt, &mut port, &mut service, &reference, 4);
    assert!(rt; counts == [3, 3, 3] && port.failures() == 1);
    let [first, second, third, _] = replies();
    let expected = [(5001, first), (5002, second), (5003, third)];
    assert!(rt; are_sent(port.wire.sent(), &expected));
    Ok(())
}

#[test]
fn each_send_fails_in_turn(rt: HostRuntime) -> Result<(), Fail> {
    let reference = reference()?;
    for (failing, expected) in others() {
        let mut port = port_of_three(rt.alloc(), failing)?;
        let mut service = enrolled_service(rt.alloc())?;
        let counts = served(&rt, &mut port, &mut service, &reference, 3);
        assert!(rt; counts == [3, 2, 2] && port.failures() == 1);
        assert!(rt;
            are_both_sent(port.wire.sent(), &expected),
            "without {failing}"
        );
    }
    Ok(())
}

#[test]
fn serving_takes_no_memory(rt: HostRuntime) -> Result<(), Fail> {
    let reference = reference()?;
    let memory = Refusing::new(rt.alloc());
    let mut service = enrolled_service(&memory)?;
    let mut port = port_of_three(&memory, 5002)?;
    let before = memory.calls();
    memory.refuse_all();
    let counts = served(&rt, &mut port, &mut service, &reference, 4);
    assert!(rt; memory.calls() == before);
    assert!(rt; counts == [3, 2, 2] && port.failures() == 2);
    Ok(())
}

#[test]
fn a_broken_port_gives_no_event(rt: HostRuntime) -> Result<(), Fail> {
    let reference = reference()?;
    let mut service = enrolled_service(rt.alloc())?;
    let mut port = FailingPort::new(0);
    let counts = served(&rt, &mut port, &mut service, &reference, 3);
    assert!(rt; counts == [0, 0, 0] && port.failures() == 3);
    Ok(())
}
