//! What comes of whole stretches of time, by a queue in memory whose datagrams and readings are written down here: each is
//! reckoned by hand, in milliseconds.

use ntp_host::UdpPort;
use ntp_port::{
    FixedReference, FreshPort, MOST_RECEIVED_OCTETS, Port, PortFault, QueueWatch, TimedPort,
};
use ntp_server::{NoReports, Server};
use std::alloc::{AllocError, Global};
use std::test::Fail;
use test_support::{
    CUSTOMER, MemoryCommands, MemoryObserver, MemoryQueue, MemoryWire, RECEIPTS, Turn,
    enrolled_service, queries, reference, replies, turn,
};

/// A datagram may have waited for less than 250 ms.
const LONGEST: u64 = 250_000_000;

// Moments in nanoseconds.
fn nanoseconds(alloc: Global, milliseconds: &[u32]) -> Result<Vec<u64>, AllocError> {
    let mut moments = Vec::new(alloc);
    for moment in milliseconds {
        moments.push(u64::from(*moment) * 1_000_000)?;
    }
    Ok(moments)
}

// A port over a queue in memory.
type QueuePort = FreshPort<UdpPort<MemoryQueue>>;

// A port over a queue. The datagrams of `turns` come to it, each after its milliseconds in `due`. The clock beside it shows the
// milliseconds `readings`.
fn fresh(
    alloc: Global,
    turns: Vec<Turn>,
    due: &[u32],
    readings: &[u32],
) -> Result<QueuePort, Fail> {
    let queue = MemoryQueue::new(
        alloc,
        MemoryWire::new(alloc, turns)?,
        nanoseconds(alloc, due)?,
        nanoseconds(alloc, readings)?,
        1_000,
    )?;
    Ok(FreshPort::new(UdpPort::new(queue), QueueWatch::new(LONGEST)))
}

// Turns with `count` datagrams of 48 octets, each from the UDP port of its place.
fn datagrams(alloc: Global, count: usize) -> Result<Vec<Turn>, Fail> {
    let mut turns = Vec::new(alloc);
    let mut port = 0u16;
    for _ in 0..count {
        turns.push(turn(alloc, port, 0, &[0; 48], true)?)?;
        port = port.wrapping_add(1);
    }
    Ok(turns)
}

// A port to which such datagrams come, each after its milliseconds in `due`.
fn port(alloc: Global, due: &[u32], readings: &[u32]) -> Result<QueuePort, Fail> {
    fresh(alloc, datagrams(alloc, due.len())?, due, readings)
}

// The UDP port of the next datagram that may be answered, where one comes in time.
fn next(port: &mut QueuePort) -> Result<Option<u16>, PortFault> {
    if port.failures() > 0 {
        return Err(PortFault::Receive);
    }
    match port.receive_in_time(&mut [0; MOST_RECEIVED_OCTETS]) {
        None => Ok(None),
        Some(Ok(arrival)) => Ok(Some(arrival.port)),
        Some(Err(fault)) => Err(fault),
    }
}

// When eleven datagrams come.
const STOPPED: [u32; 11] = [
    200, 500, 800, 1_100, 1_400, 1_700, 2_000, 2_300, 2_600, 2_900, 5_150,
];

#[test]
fn what_waited_while_the_process_was_stopped_is_dropped(rt: HostRuntime) -> Result<(), Fail> {
    // Two takes at 5,100 ms, after a stop of five seconds, and one later. Before the second the nine that are left are counted,
    // and behind it eight are swept out. Behind the first, a sweep finds nothing that was counted.
    let mut port = port(rt.alloc(), &STOPPED, &[0, 100, 5_100, 5_100, 5_200, 5_300])?;
    for (expected, stale, sweeps) in [(None, 0, 0), (Some(10), 10, 2), (None, 10, 2)] {
        assert!(rt; next(&mut port) == Ok(expected));
        assert!(rt; port.stale() == stale);
        assert!(rt; port.sweeps() == sweeps);
    }
    Ok(())
}

// How many are passed on in `calls` calls, and how many are dropped.
fn passed_on(port: &mut QueuePort, calls: u32) -> Result<(usize, u64), PortFault> {
    let mut passed_on = 0usize;
    for _ in 0..calls {
        if next(port)?.is_some() {
            passed_on = passed_on.saturating_add(1);
        }
    }
    Ok((passed_on, port.stale()))
}

// A port to which two hundred datagrams come, one each 10 ms; `waiting` of them always wait.
fn overloaded(alloc: Global, waiting: u32) -> Result<QueuePort, Fail> {
    let mut due = [0; 200];
    for number in 0..200u32 {
        due[number as usize] = 1 + number.saturating_sub(waiting) * 10;
    }
    let mut readings = [0; 250];
    for number in 0..250u32 {
        readings[number as usize] = number * 10;
    }
    port(alloc, &due, &readings)
}

#[test]
fn overload_is_answered_by_what_came_behind_the_stale_ones(rt: HostRuntime) -> Result<(), Fail> {
    // The queue is never seen empty. Three datagrams that a look finds are taken out 30 ms later.
    let mut port = overloaded(rt.alloc(), 3)?;
    assert!(rt; passed_on(&mut port, 200) == Ok((200, 0)));
    assert!(rt; port.sweeps() == 0);
    // Thirty would be taken out 300 ms later. Nothing had come at 0 ms, and thirty were counted at 80 ms. The 25th datagram is in
    // hand at 250 ms: it is dropped, and so are the 13 of the thirty behind it. What comes next came after 80 ms. The 17 that
    // wait then are counted; at 330 ms one is dropped, and the nine that are left of them. Six wait then, and are in time.
    let mut port = overloaded(rt.alloc(), 30)?;
    assert!(rt; passed_on(&mut port, 200) == Ok((176, 24)));
    assert!(rt; port.sweeps() == 2);
    Ok(())
}

// A port to which a datagram comes each second, beside a clock that is read each tenth of a second.
fn sparse(alloc: Global) -> Result<QueuePort, Fail> {
    let mut due = [0; 20];
    for second in 0..20u32 {
        due[second as usize] = second * 1_000 + 950;
    }
    let mut readings = [0; 250];
    for wait in 0..250u32 {
        readings[wait as usize] = wait * 100;
    }
    port(alloc, &due, &readings)
}

#[test]
fn sparse_datagrams_are_answered(rt: HostRuntime) -> Result<(), Fail> {
    let mut port = sparse(rt.alloc())?;
    assert!(rt; passed_on(&mut port, 230) == Ok((20, 0)));
    Ok(())
}

// A server of the customer over such a port.
type FreshServer = Server<
    QueuePort,
    MemoryCommands<Global>,
    FixedReference,
    MemoryObserver<Global>,
    Global,
>;

fn server_at(alloc: Global, port: QueuePort) -> Result<FreshServer, Fail> {
    Ok(Server {
        port,
        commands: MemoryCommands::new(Vec::new(alloc)),
        applied: 0,
        reference: FixedReference(reference()?),
        observer: MemoryObserver::new(alloc, 1)?,
        service: enrolled_service(alloc)?,
    })
}

// Makes one turn of it, and returns how many datagrams were dropped.
fn one_turn(server: &mut FreshServer) -> Result<u64, PortFault> {
    if server.port.failures() > 0 {
        return Err(PortFault::Receive);
    }
    server.serve(1, &mut NoReports);
    Ok(server.port.stale())
}

// Whether it has sent this reply to a UDP port of the customer, and nothing else.
fn has_sent_only(server: &FreshServer, port: u16, reply: &[u8; 68]) -> bool {
    match server.port.port().wire.sent() {
        [sent] => sent.address == CUSTOMER
            && sent.port == port
            && sent.reply.octets() == reply.as_slice(),
        _ => false,
    }
}

// Turns with two queries of the customer.
fn two_queries(alloc: Global) -> Result<Vec<Turn>, Fail> {
    let mut turns = Vec::new(alloc);
    let [first, second, _] = queries();
    turns.push(turn(alloc, 5001, RECEIPTS[0], &first, true)?)?;
    turns.push(turn(alloc, 5002, RECEIPTS[1], &second, true)?)?;
    Ok(turns)
}

#[test]
fn what_is_answered_is_what_came_behind_the_stale_ones(rt: HostRuntime) -> Result<(), Fail> {
    let alloc = rt.alloc();
    // The first waits for 4,900 ms, the second for 50 ms.
    let port = fresh(
        alloc,
        two_queries(alloc)?,
        &[200, 5_150],
        &[0, 5_100, 5_200],
    )?;
    let mut server = server_at(alloc, port)?;
    assert!(rt; one_turn(&mut server) == Ok(1));
    let [_, second, ..] = replies();
    assert!(rt; has_sent_only(&server, 5002, &second));
    Ok(())
}
