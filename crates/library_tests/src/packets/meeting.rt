//! Worked exchanges of a client with a server that has one customer.

use ntp_admin::parse_command;
use ntp_client::{Client, Sample, Taken};
use ntp_mac::{Algorithm, Key};
use ntp_packet::Stamp;
use ntp_reply::{Answer, Reference};
use ntp_service::Service;
use std::alloc::Global;
use std::test::Fail;
use test_support::{CUSTOMER, enrolled_service, moment, reference};

/// The transmit stamp of the first request.
const T: u64 = 0xec00_0010_8000_0000;

/// When the server got it.
const R: u64 = 0xec00_0010_9000_0000;

/// When the reply to it arrived.
const ARRIVAL: u64 = 0xec00_0010_a000_0000;

// A client with the key number 7.
fn client() -> Result<Client, Fail> {
    Ok(Client::new(Key::new(Algorithm::Md5, b"key")?, 7))
}

// A server that has one customer, and the state of its clock.
#[derive(Drop)]
struct Server {
    reference: Reference,
    service: Service,
}

fn enrolled_server(alloc: Global) -> Result<Server, Fail> {
    Ok(Server {
        reference: reference()?,
        service: enrolled_service(alloc)?,
    })
}

// Whether a command is carried out.
fn is_done(server: &mut Server, line: &str) -> bool {
    match parse_command(line) {
        Ok(command) => server.service.command(&command).is_ok(),
        Err(_) => false,
    }
}

// What a client takes the server's reply for, if there is one, to octets that come from the customer, where the reply departs
// 256 units after their receipt.
fn taken(
    client: &mut Client,
    server: &mut Server,
    octets: &[u8],
    receipt: u64,
    at: u64,
) -> Option<Taken> {
    let transmit = moment(receipt.wrapping_add(0x100));
    let reference = server.reference;
    let receipt = moment(receipt);
    let answer = server
        .service
        .datagram(CUSTOMER, receipt, transmit, &reference, octets);
    Some(client.take(answer.reply()?.octets(), moment(at)))
}

// What a client takes the reply for to its own request, by when that left and came, and when the reply arrived.
fn answered(client: &mut Client, server: &mut Server, times: [u64; 3]) -> Option<Taken> {
    let request = client.request(moment(times[0]));
    taken(client, server, request.octets(), times[1], times[2])
}

// The same of a request without its MAC.
fn answered_unsigned(client: &mut Client, server: &mut Server, times: [u64; 3]) -> Option<Taken> {
    let request = client.request(moment(times[0]));
    taken(
        client,
        server,
        request.octets().get(..48)?,
        times[1],
        times[2],
    )
}

// Whether the departure of the reply to the first request was noted.
fn departs(server: &mut Server, departure: u64) -> bool {
    server
        .service
        .departed(CUSTOMER, Stamp(R), moment(departure))
}

// A sample of a request that left at `T`, by its receipt and the departure that a reply tells.
fn sample(receipt: u64, departure: u64, interleaved: bool) -> Taken {
    Taken::Sample(Sample {
        t1: Stamp(T),
        t2: Stamp(receipt),
        t3: Stamp(departure),
        t4: Stamp(ARRIVAL),
        interleaved,
    })
}

// A basic sample of a request that comes at this receipt.
fn basic(receipt: u64) -> Option<Taken> {
    Some(sample(receipt, receipt.wrapping_add(0x100), false))
}

// When the next request leaves and comes, and when the reply to it arrives.
const NEXT: [u64; 3] = [
    0xec00_0011_8000_0000,
    0xec00_0011_9000_0000,
    0xec00_0011_a000_0000,
];

#[test]
fn a_basic_and_an_interleaved_sample(rt: HostRuntime) -> Result<(), Fail> {
    let mut client = client()?;
    let mut server = enrolled_server(rt.alloc())?;
    let departure = 0xec00_0010_9000_0180;
    assert!(rt; answered(&mut client, &mut server, [T, R, ARRIVAL]) == basic(R));
    assert!(rt; departs(&mut server, departure));
    let interleaved = Some(sample(R, departure, true));
    assert!(rt; answered(&mut client, &mut server, NEXT) == interleaved);
    Ok(())
}

#[test]
fn samples_under_both_keys_of_a_customer(rt: HostRuntime) -> Result<(), Fail> {
    let mut with_older = client()?;
    let mut with_newer = Client::new(Key::new(Algorithm::Sha1, b"newer")?, 9);
    let later = R + 0x800_0000;
    let mut server = enrolled_server(rt.alloc())?;
    assert!(rt; is_done(&mut server, "rollover 192.0.2.10 9 sha1 6e65776572"));
    assert!(rt; answered(&mut with_older, &mut server, [T, R, ARRIVAL]) == basic(R));
    assert!(rt; answered(&mut with_newer, &mut server, [T, later, ARRIVAL]) == basic(later));
    Ok(())
}

#[test]
fn a_rate_past_the_budget(rt: HostRuntime) -> Result<(), Fail> {
    let mut client = client()?;
    let mut server = enrolled_server(rt.alloc())?;
    assert!(rt; is_done(&mut server, "budget 192.0.2.10 1"));
    assert!(rt; answered(&mut client, &mut server, [T, R, ARRIVAL]) == basic(R));
    assert!(rt; answered(&mut client, &mut server, [T, R, ARRIVAL]) == Some(Taken::Rate));
    Ok(())
}

#[test]
fn refusals(rt: HostRuntime) -> Result<(), Fail> {
    let mut stranger = Client::new(Key::new(Algorithm::Sha1, b"other")?, 8);
    let mut client = client()?;
    let mut server = enrolled_server(rt.alloc())?;
    let other = answered(&mut stranger, &mut server, [T, R, ARRIVAL]);
    assert!(rt; other == Some(Taken::Nak));
    let unsigned = answered_unsigned(&mut client, &mut server, [T, R, ARRIVAL]);
    assert!(rt; unsigned == Some(Taken::Deny));
    Ok(())
}
