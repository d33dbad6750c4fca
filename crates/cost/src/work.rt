//! The work whose cost is counted.

ghost use Rattle.std.specs.Prelude.{◌≤◌};

use crate::many;
use crate::words::{Query, Word};
use ntp_admin::Command;
use ntp_mac::{Algorithm, Key, digest};
use ntp_packet::{Moment, Short, Stamp, read_request};
use ntp_reply::{Answer, Reference};
use ntp_service::{Address, Service};
use std::alloc::Global;
use std::num::NonZero;

const CUSTOMER: Address = Address([192, 0, 2, 10]);

/// The number of its newer key, where it has two.
const NEWER: u16 = 9;

/// The header of a client's query.
const HEADER: [u8; 48] = [
    0x23, 0, 6, 0, 0, 0, 0, 0, 0, 0, 0, 0, 0, 0, 0, 0, 0, 0, 0, 0, 0, 0, 0, 0, 0, 0, 0, 0, 0, 0, 0,
    0, 0, 0, 0, 0, 0, 0, 0, 0, 0xec, 0, 0, 0x10, 0x80, 0, 0, 0,
];

/// How many queries come in a round: more than exchanges are saved, so that each stamp is free when it comes again.
const ROUND: usize = 10;

/// The stamps at which they come.
const RECEIPTS: [u64; ROUND] = [
    0xec00_0010_0000_0000,
    0xec00_0011_0000_0000,
    0xec00_0012_0000_0000,
    0xec00_0013_0000_0000,
    0xec00_0014_0000_0000,
    0xec00_0015_0000_0000,
    0xec00_0016_0000_0000,
    0xec00_0017_0000_0000,
    0xec00_0018_0000_0000,
    0xec00_0019_0000_0000,
];

// Does the work that the words ask for, and counts it; none where they ask for nothing.
pub(crate) fn done(alloc: Global, words: [Word; 4]) -> u64 {
    match words {
        [
            Word::Asked(kind),
            Word::By(algorithm),
            Word::Number(count),
            _,
        ] => queries(alloc, kind, algorithm, count),
        [Word::Digests, Word::By(algorithm), Word::Number(count), _] => digests(algorithm, count),
        [Word::Fields, Word::Number(many), Word::Number(count), _] => fields(many, count),
        [
            Word::From(who),
            Word::Number(customers),
            Word::Number(revoked),
            Word::Number(count),
        ] => {
            let customers = customers.min(65_535) as u16;
            many::asked(alloc, who, customers, revoked.min(1_000_000) as u32, count)
        }
        _ => 0,
    }
}

// Signed queries that were answered with the time. They come a second apart, in rounds.
fn queries(alloc: Global, kind: Query, algorithm: Algorithm, count: u64) -> u64 {
    let Ok(key) = Key::new(algorithm, b"key") else {
        return 0;
    };
    let Some(reference) = reference() else {
        return 0;
    };
    let mut service = Service::new(alloc);
    if !enrolled(&mut service, CUSTOMER, 7, key) {
        return 0;
    }
    if kind == Query::Newer && !rolled_over(&mut service, NEWER, key) {
        return 0;
    }
    let mut round = [[0; 72]; ROUND];
    for place in 0..ROUND {
        let last = RECEIPTS[(place + ROUND - 1) % ROUND];
        fill(kind, last, &mut round[place]);
        sign(key, &mut round[place]);
    }
    let length = query_length(algorithm);
    let mut answered = 0u64;
    for turn in 0..count {
        let place = (turn % ROUND as u64) as usize;
        let receipt = moment(RECEIPTS[place]);
        let transmit = moment(RECEIPTS[place].wrapping_add(0x100));
        let query = &round[place][..length];
        let answer = service.datagram(CUSTOMER, receipt, transmit, &reference, query);
        if matches!(answer, Answer::Time { .. }) {
            answered = answered.saturating_add(1);
        }
    }
    answered
}

/// The clock's state.
pub(crate) fn reference() -> Option<Reference> {
    let set = Stamp(0xec00_0000_0000_0000);
    Reference::new(0, 1, -20, Short(0), Short(16), *b"NIST", set).ok()
}

/// Whether a customer could be enrolled.
pub(crate) fn enrolled(service: &mut Service, address: Address, number: u16, key: Key) -> bool {
    let (Some(number), Some(budget)) = (NonZero::<u16>::new(number), NonZero::<u16>::new(65_535))
    else {
        return false;
    };
    let enrolment = Command::Enrol {
        address,
        number,
        key,
        budget,
    };
    service.command(&enrolment).is_ok()
}

// Whether the customer could be given a second key.
fn rolled_over(service: &mut Service, number: u16, key: Key) -> bool {
    let Some(number) = NonZero::<u16>::new(number) else {
        return false;
    };
    let rollover = Command::Rollover {
        address: CUSTOMER,
        number,
        key,
    };
    service.command(&rollover).is_ok()
}

/// Writes a query and the key number behind it. One that asks for an interleaved reply has the receive stamp of the reply
/// before it as its origin.
pub(crate) fn fill(kind: Query, last: u64, query: &mut [u8; 72]) {
    query[..48].copy_from_slice(&HEADER);
    if kind == Query::Interleaved {
        query[24..32].copy_from_slice(&last.to_be_bytes());
        query[32..40].copy_from_slice(&last.wrapping_add(0x1000_0000).to_be_bytes());
    }
    query[51] = match kind {
        Query::Basic | Query::Interleaved => 7,
        Query::Newer => NEWER as u8,
    };
}

// How many octets a signed query has.
fn query_length(algorithm: Algorithm) -> usize
    ensures { result ≤ 72 }
{
    match algorithm {
        Algorithm::Md5 => 68,
        Algorithm::Sha1 => 72,
    }
}

/// Puts the digest behind the header and the number.
pub(crate) fn sign(key: Key, query: &mut [u8; 72]) {
    match digest(&key, &query[..48]) {
        ntp_mac::Digest::Md5(octets) => query[52..68].copy_from_slice(&octets),
        ntp_mac::Digest::Sha1(octets) => query[52..72].copy_from_slice(&octets),
    }
}

/// The moment of era 0 with this stamp.
pub(crate) fn moment(units: u64) -> Moment {
    Moment {
        era: 0,
        stamp: Stamp(units),
    }
}

// The two digests of a query and its reply, and no more.
fn digests(algorithm: Algorithm, count: u64) -> u64 {
    let Ok(key) = Key::new(algorithm, b"key") else {
        return 0;
    };
    let mut computed = 0u64;
    for _ in 0..count {
        let query = digest(&key, &HEADER);
        let reply = digest(&key, &HEADER);
        if query == reply {
            computed = computed.saturating_add(1);
        }
    }
    computed
}

// Requests that were read: a header, `many` fields of 16 octets (58 at most), and 20 zero octets of a MAC.
fn fields(many: u64, count: u64) -> u64 {
    let many = (many as usize).min(58);
    let length = 48 + 16 * many + 20;
    let mut octets = [0; 1024];
    octets[..48].copy_from_slice(&HEADER);
    for place in 0..many {
        octets[48 + 16 * place + 3] = 16;
    }
    let mut read = 0u64;
    for _ in 0..count {
        if read_request(&octets[..length]).is_ok() {
            read = read.saturating_add(1);
        }
    }
    read
}
