//! A server and a client meet, time after time.
ghost use Rattle.std.specs.Prelude.{◌≡◌, ℕ, ◌+◌, ◌-◌, ◌≤◌, ◌<◌, ◌^◌, OnOk, IfOk};
ghost use Rattle.std.specs.Io.KnownBytes.{Appends};
ghost use Rattle.ntp_port.specs.Port.{failed_calls};
ghost use Rattle.labntp_jobs.specs.Taken.{HasMet, word_of};

use ntp_client::{Client, Taken};
use ntp_host::{SystemWire, UdpPort, moment_now};
use ntp_mac::{Algorithm, Key};
use ntp_packet::Short;
use ntp_port::{MOST_RECEIVED_OCTETS, TimedPort, answer_received};
use ntp_reply::Reference;
use ntp_service::{Address, Command, Service, TurnOutcome};
use std::alloc::Allocator;
use std::io::{self, Write};
use std::net::{Net, UdpSocket};
use std::num::NonZero;
use std::time::{Clock, Duration};

/// How long the arrival of a datagram is waited for, in seconds.
const LONGEST_WAIT: u64 = 5;

/// The number of the one customer's key.
const NUMBER: u16 = 1;

/// Why a meeting ended early.
#[derive(Clone, Copy, Debug, PartialEq, Eq)]
pub enum LoopbackFault {
    /// There was no memory.
    NoMemory,
    /// A socket failed, or nothing came in time.
    Socket,
    /// A word could not be written.
    Write,
}

/// Lets a server and a client meet `turns` times over two sockets of 127.0.0.1, one step after the other. The server
/// has one customer, 127.0.0.1, with key number 1, the SHA-1 key `loopback` and a budget of 65,535; its clock's state is
/// stratum 1, precision -20, identifier `LOOP`, and it was set at the start.
///
/// Writes a line to `out` for what the client took each time: `basic`, `interleaved`, `rate`, `deny`, `nak` or `refused`.
/// It takes memory for the one customer.
pub fn meet<R: Net + Clock, A: Allocator + Copy, W: Write>(
    rt: &R,
    alloc: A,
    turns: u32,
    out: &mut W,
) -> Result<(), LoopbackFault>
    ensures met { OnOk result (HasMet turns (W.contents out.old) (W.contents out.new)) }
    ensures memory { result ≡ Err LoopbackFault.NoMemory → HasMet 0 (W.contents out.old) (W.contents out.new) }
    ensures socket { result ≡ Err LoopbackFault.Socket
        → (times : ℕ) × (times ≤ turns) × HasMet times (W.contents out.old) (W.contents out.new) }
{
    let Some(service) = service_with_one(alloc) else {
        return Err(LoopbackFault::NoMemory);
    };
    let Ok(mut pair) = udp_pair(rt, service) else {
        return Err(LoopbackFault::Socket);
    };
    for _turn in 0..turns {
        let Some(taken) = pair.meet() else {
            return Err(LoopbackFault::Socket);
        };
        if writeln!(out, "{}", word_of(taken)).is_err() {
            return Err(LoopbackFault::Write);
        }
    }
    Ok(())
}

// The key of the one customer.
fn key() -> Key {
    Key::new(Algorithm::Sha1, b"loopback").unwrap()
}

// A service with the one customer; none for want of memory.
fn service_with_one<A: Allocator + Copy>(alloc: A) -> Option<Service<A>> {
    let mut service = Service::new(alloc);
    let enrolment = Command::Enrol {
        address: Address([127, 0, 0, 1]),
        number: NonZero::<u16>::new(NUMBER)?,
        key: key(),
        budget: NonZero::<u16>::new(65_535)?,
    };
    service.command(&enrolment).ok()?;
    Some(service)
}

// A server at a port, and a client whose socket is joined to it.
#[derive(Drop)]
struct Pair<'a, P, R: Clock, A: Allocator> {
    port: P,
    service: Service<A>,
    reference: Reference,
    client: Client,
    socket: UdpSocket,
    clock: &'a R,
}

// A server and a client over two sockets.
fn udp_pair<'a, R: Net + Clock, A: Allocator + Copy>(
    rt: &'a R,
    service: Service<A>,
) -> io::Result<Pair<'a, UdpPort<SystemWire<&'a R>>, R, A>>
    ensures { IfOk result (λ pair. failed_calls pair.port.counts ≡ 0) }
{
    let served = local_socket(rt)?;
    let server = served.local_addr()?;
    let socket = local_socket(rt)?;
    socket.connect(server)?;
    let now = moment_now(&rt);
    let reference = Reference::new(0, 1, -20, Short(0), Short(0), *b"LOOP", now.stamp).unwrap();
    let wire = SystemWire {
        socket: served,
        clock: rt,
        queue: (),
    };
    Ok(Pair {
        port: UdpPort::new(wire),
        service,
        reference,
        client: Client::new(key(), NUMBER),
        socket,
        clock: rt,
    })
}

impl<'a, P: TimedPort, R: Clock, A: Allocator + Copy> Pair<'a, P, R, A> {
    // One request and its reply, and what the client took it for; nothing where a socket failed or nothing came.
    fn meet(&mut self) -> Option<Taken>
        requires { failed_calls (P.counts self.old.port) < 2 ^ 64 - 1 }
        ensures { failed_calls (P.counts self.new.port) ≤ failed_calls (P.counts self.old.port) + 1 }
    {
        let departure = moment_now(&self.clock);
        let query = self.client.request(departure);
        self.socket.send(query.octets()).ok()?;
        let mut datagram = [0; MOST_RECEIVED_OCTETS];
        let received = self.port.receive_in_time(&mut datagram)?;
        let outcome = answer_received(
            &mut self.port,
            &mut self.service,
            &self.reference,
            received,
            &datagram,
        );
        if !matches!(outcome, TurnOutcome::Answered { sending, .. } if sending.was_sent()) {
            return None;
        }
        let length = self.socket.recv(&mut datagram).ok()?;
        let arrival = moment_now(&self.clock);
        Some(self.client.take(&datagram[..length], arrival))
    }
}

// A socket at some port of 127.0.0.1, with its time limit.
fn local_socket<R: Net>(rt: &R) -> io::Result<UdpSocket> {
    let socket = UdpSocket::bind(rt, "127.0.0.1:0")?;
    socket.set_read_timeout(Some(Duration::from_secs(LONGEST_WAIT)))?;
    Ok(socket)
}

// The word for what a client took.
fn word_of(taken: Taken) -> &'static str
    ensures { result.now ≡ word_of taken }
{
    match taken {
        Taken::Sample(sample) if sample.interleaved => "interleaved",
        Taken::Sample(_) => "basic",
        Taken::Rate => "rate",
        Taken::Deny => "deny",
        Taken::Nak => "nak",
        Taken::Refused(_) => "refused",
    }
}
