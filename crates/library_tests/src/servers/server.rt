//! What no contract says of a server: what three turns come to with commands between them, to the octet, that serving takes
//! no memory where no commands change, that commands are carried out while nothing comes, when the source of the clock's
//! state is given time, and when a reporter is shown the server. The digests are those of Python's `hashlib.md5` over the
//! key `key` and the octets before the key number, and of `hashlib.sha1` with the key `new`.

use crate::servers::failing_port::FailingPort;
use crate::servers::looks::commands;
use ntp_admin::parse_command;
use ntp_host::UdpPort;
use ntp_mac::Reply;
use ntp_packet::{Moment, Stamp};
use ntp_port::{FixedReference, ReferenceSource, TimedPort};
use ntp_reply::{Answer, Reason, Reference, SignedReply};
use ntp_server::{NoReports, Reporter, Server};
use ntp_service::{Arrival, LineOutcome, Observation, Sending, Service, TurnOutcome};
use std::alloc::{Allocator, Global};
use std::process::Abort;
use std::test::Fail;
use test_support::{
    CUSTOMER, MemoryCommands, MemoryObserver, MemoryStates, MemoryWire, Refusing, moment, queries,
    reference, replies, turn,
};

/// Pieces of commands.
const ENROLMENT: &[u8] = b"enrol 192.0.2.10 7 md5 6b6579 10\n";

const REVOCATION: &[u8] = b"revoke 192.0.2.10\n";

/// Their commands.
const ENROL: &str = "enrol 192.0.2.10 7 md5 6b6579 10";

const REVOKE: &str = "revoke 192.0.2.10";

/// One that gives the customer two keys.
const TWO_KEYS: &[u8] = b"enrol 192.0.2.10 7 md5 6b6579 10\nrollover 192.0.2.10 9 sha1 6e6577\n";

/// A query that is signed under the newer one, with transmit stamp ec00001280000000.
const NEWER_QUERY: &[u8] = b"\x23\x00\x06\x00\
    \x00\x00\x00\x00\x00\x00\x00\x00\x00\x00\x00\x00\x00\x00\x00\x00\x00\x00\x00\x00\
    \x00\x00\x00\x00\x00\x00\x00\x00\x00\x00\x00\x00\x00\x00\x00\x00\xec\x00\x00\x12\x80\x00\x00\x00\
    \x00\x00\x00\x09\xc9\x04\xc7\xe4\x4c\xdb\x4d\xd6\xab\xb7\
    \xd6\xcd\x78\x13\xea\xf4\x5e\x03\x69\x1d";

/// The refusal of the second query.
const DENIAL: &[u8] = b"\xe4\x00\x06\x00\
    \x00\x00\x00\x00\x00\x00\x00\x00DENY\x00\x00\x00\x00\x00\x00\x00\x00\
    \xec\x00\x00\x11\x80\x00\x00\x00\x00\x00\x00\x00\x00\x00\x00\x00\xec\x00\x00\x11\x80\x00\x00\x00";

/// When datagrams come.
const FIRST_RECEIPT: u64 = 0xec00_000f_9000_0000;

const SECOND_RECEIPT: u64 = 0xec00_0010_9000_0000;

const THIRD_RECEIPT: u64 = 0xec00_0011_9000_0000;

const FOURTH_RECEIPT: u64 = 0xec00_0012_9000_0000;

// What an observer is told of a datagram of 68 octets that was answered.
fn answered(port: u16, receipt: u64, answer: Answer, sending: Sending) -> Observation {
    let arrival = Arrival {
        address: CUSTOMER,
        port,
        length: 68,
        receipt: moment(receipt),
    };
    Observation::Turn(TurnOutcome::Answered {
        arrival,
        answer,
        sending,
    })
}

// What it is told of a line with this command that was carried out.
fn done(number: u64, line: &str) -> Result<Observation, Fail> {
    let command = parse_command(line).ok().ok_or("no command")?;
    Ok(Observation::Line {
        number,
        command: Some(command),
        outcome: LineOutcome::Done,
    })
}

// What a reporter was shown: when the datagram came, and how many lines of the commands file were applied by then.
#[derive(Drop)]
struct Shown(Vec<(Option<Moment>, u64)>);

impl<P, C, R, O, A: Allocator> Reporter<Server<P, C, R, O, A>> for Shown {
    fn report(&mut self, server: &Server<P, C, R, O, A>, receipt: Option<Moment>) {
        let _ = self.0.push((receipt, server.applied));
    }
}

// A state that is in force for ever, which counts how often it was given time.
#[derive(Drop)]
struct Tended {
    reference: Reference,
    times: u64,
}

impl ReferenceSource for Tended {
    fn in_force(&mut self, _receipt: Option<Moment>) -> Reference {
        self.reference
    }

    fn tend(&mut self) {
        self.times = self.times.saturating_add(1);
    }
}

// A port over a wire in memory.
type WirePort<A> = UdpPort<MemoryWire<A>>;

// A port to which the customer's octets come: from a UDP port, at a stamp.
fn port<A: Allocator + Copy>(alloc: A, coming: &[(u16, u64, &[u8])]) -> Result<WirePort<A>, Fail> {
    let mut turns = Vec::new(alloc);
    for (port, receipt, octets) in coming {
        turns.push(turn(alloc, *port, *receipt, octets, true)?)?;
    }
    Ok(UdpPort::new(MemoryWire::new(alloc, turns)?))
}

// A server that knows nobody. Its observer has room for `room` observations.
fn server<P: Drop, R: Drop, A: Allocator + Copy>(
    alloc: A,
    port: P,
    commands: MemoryCommands<A>,
    reference: R,
    room: usize,
) -> Result<Server<P, MemoryCommands<A>, R, MemoryObserver<A>, A>, Fail> {
    Ok(Server {
        port,
        commands,
        applied: 0,
        reference,
        observer: MemoryObserver::new(alloc, room)?,
        service: Service::new(alloc),
    })
}

// What a server does in `turns` turns. It is shown to `reporter` between them.
fn served<P: TimedPort, R: ReferenceSource, A: Allocator + Copy, Q>(
    rt: &impl Abort,
    server: &mut Server<P, MemoryCommands<A>, R, MemoryObserver<A>, A>,
    turns: u64,
    reporter: &mut Q,
)
where
    Q: Reporter<Server<P, MemoryCommands<A>, R, MemoryObserver<A>, A>>,
{
    assert!(rt; server.port.failures() == 0);
    server.serve(turns, reporter);
}

// What is told of a datagram before the enrolment, of one behind it, and of one behind the revocation.
fn told_of_three_turns() -> Result<[Observation; 5], Fail> {
    let [first, ..] = replies();
    let reply = SignedReply {
        octets: Reply::from_octets(&first).ok_or("no reply")?,
        number: 7,
        is_interleaved: false,
    };
    let denial = Reply::from_octets(DENIAL).ok_or("no denial")?;
    let saved = Stamp(SECOND_RECEIPT);
    let silence = Answer::Silent(Reason::Unregistered);
    Ok([
        answered(5001, FIRST_RECEIPT, silence, Sending::NoReply),
        done(1, ENROL)?,
        answered(
            5002,
            SECOND_RECEIPT,
            Answer::Time { reply, saved },
            Sending::Noted,
        ),
        done(2, REVOKE)?,
        answered(5003, THIRD_RECEIPT, Answer::Deny(denial), Sending::Sent),
    ])
}

// A port to which datagrams come one behind another.
fn port_of_three<A: Allocator + Copy>(alloc: A) -> Result<WirePort<A>, Fail> {
    let [first, second, _] = queries();
    let coming: [(u16, u64, &[u8]); 3] = [
        (5001, FIRST_RECEIPT, &first),
        (5002, SECOND_RECEIPT, &first),
        (5003, THIRD_RECEIPT, &second),
    ];
    port(alloc, &coming)
}

// A port to which those come that are signed under two keys.
fn port_of_three_signed<A: Allocator + Copy>(alloc: A) -> Result<WirePort<A>, Fail> {
    let [first, second, _] = queries();
    let coming: [(u16, u64, &[u8]); 3] = [
        (5001, SECOND_RECEIPT, &first),
        (5002, THIRD_RECEIPT, &second),
        (5003, FOURTH_RECEIPT, NEWER_QUERY),
    ];
    port(alloc, &coming)
}

// Whether a reporter was shown a server at each datagram, of whose commands one line more was applied each time.
fn is_shown_each(shown: &Shown) -> bool {
    let lines_applied = [
        (Some(moment(FIRST_RECEIPT)), 0),
        (Some(moment(SECOND_RECEIPT)), 1),
        (Some(moment(THIRD_RECEIPT)), 2),
    ];
    shown.0.as_slice() == lines_applied.as_slice()
}

#[test]
fn commands_are_carried_out_before_the_datagram_is_answered(rt: HostRuntime) -> Result<(), Fail> {
    let alloc = rt.alloc();
    let fixed = FixedReference(reference()?);
    let told = told_of_three_turns()?;
    let port = port_of_three(alloc)?;
    let commands = commands(alloc, &[None, None, Some(ENROLMENT), Some(REVOCATION)])?;
    let mut server = server(alloc, port, commands, fixed, 5)?;
    let mut shown = Shown(Vec::new(alloc));
    served(&rt, &mut server, 3, &mut shown);
    assert!(rt; server.applied == 2 && is_shown_each(&shown));
    assert!(rt; !server.observer.has_missed());
    assert!(rt; server.observer.seen() == told.as_slice());
    Ok(())
}

// A server whose memory can be refused, of a customer with two keys.
type SignedServer<'a> = Server<
    WirePort<&'a Refusing<Global>>,
    MemoryCommands<&'a Refusing<Global>>,
    MemoryStates<&'a Refusing<Global>>,
    MemoryObserver<&'a Refusing<Global>>,
    &'a Refusing<Global>,
>;

fn signed_server(memory: &Refusing<Global>) -> Result<SignedServer<'_>, Fail> {
    let mut states = Vec::new(memory);
    states.push(reference()?)?;
    let states = MemoryStates::new(states, reference()?);
    let port = port_of_three_signed(memory)?;
    let commands = commands(memory, &[Some(TWO_KEYS)])?;
    server(memory, port, commands, states, 3)
}

#[test]
fn serving_takes_no_memory_where_no_commands_change(rt: HostRuntime) -> Result<(), Fail> {
    let memory = Refusing::new(rt.alloc());
    let mut server = signed_server(&memory)?;
    served(&rt, &mut server, 1, &mut NoReports);
    let before = memory.calls();
    memory.refuse_all();
    served(&rt, &mut server, 3, &mut NoReports);
    assert!(rt; server.port.wire.sent().len() == 3);
    assert!(rt; memory.calls() == before);
    assert!(rt; server.observer.has_missed() && server.observer.seen().len() == 3);
    Ok(())
}

// A server to which nothing comes, whose commands have no line at the start and then one at each of two looks.
fn quiet_server(
    alloc: Global,
) -> Result<
    Server<FailingPort, MemoryCommands<Global>, Tended, MemoryObserver<Global>, Global>,
    Fail,
> {
    let tended = Tended {
        reference: reference()?,
        times: 0,
    };
    let commands = commands(alloc, &[None, Some(ENROLMENT), Some(REVOCATION)])?;
    server(alloc, FailingPort::new(2), commands, tended, 3)
}

// What is told of its commands, and of a turn in which nothing could be received.
fn told_while_nothing_comes() -> Result<[Observation; 3], Fail> {
    Ok([
        done(1, ENROL)?,
        done(2, REVOKE)?,
        Observation::Turn(TurnOutcome::NothingReceived),
    ])
}

// When it is shown to a reporter, and how many lines are applied by then.
const SHOWN_QUIET: [(Option<Moment>, u64); 3] = [(None, 1), (None, 2), (None, 2)];

#[test]
fn commands_are_carried_out_while_nothing_comes(rt: HostRuntime) -> Result<(), Fail> {
    let told = told_while_nothing_comes()?;
    let mut server = quiet_server(rt.alloc())?;
    let mut shown = Shown(Vec::new(rt.alloc()));
    served(&rt, &mut server, 1, &mut shown);
    assert!(rt; server.applied == 2 && server.reference.times == 2);
    assert!(rt; shown.0.as_slice() == SHOWN_QUIET.as_slice());
    assert!(rt; server.observer.seen() == told.as_slice());
    Ok(())
}

// A server that has not begun, with a line of commands at each of two looks, and one behind a look that gives nothing.
fn unbegun_server(
    alloc: Global,
) -> Result<
    Server<
        WirePort<Global>,
        MemoryCommands<Global>,
        FixedReference,
        MemoryObserver<Global>,
        Global,
    >,
    Fail,
> {
    let pieces = [Some(ENROLMENT), Some(REVOCATION), None, Some(ENROLMENT)];
    let commands = commands(alloc, &pieces)?;
    let fixed = FixedReference(reference()?);
    server(alloc, port(alloc, &[])?, commands, fixed, 2)
}

#[test]
fn commands_of_the_start_are_carried_out_before_the_first_turn(
    rt: HostRuntime,
) -> Result<(), Fail> {
    let told = [done(1, ENROL)?, done(2, REVOKE)?];
    let mut server = unbegun_server(rt.alloc())?;
    let mut shown = Shown(Vec::new(rt.alloc()));
    served(&rt, &mut server, 0, &mut shown);
    assert!(rt; server.applied == 2 && shown.0.is_empty());
    assert!(rt; server.observer.seen() == told.as_slice());
    Ok(())
}
