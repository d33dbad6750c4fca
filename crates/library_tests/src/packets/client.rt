//! Worked exchanges with a server. The digests are those of Python's `hashlib.md5` over the key `key` and
//! the 48 octets before them.
ghost use Rattle.std.specs.Prelude.{◌≤◌};

use ntp_client::{Client, Distrust, Sample, Taken};
use ntp_mac::{Algorithm, Key, Reply};
use ntp_packet::{Malformed, Stamp};
use std::process::Abort;
use std::test::Fail;
use test_support::{PRIMARY, moment, packet, query, reply, stamps};

/// The transmit stamp of the first request.
const T: u64 = 0xec00_0010_8000_0000;

/// When the server got it.
const R: u64 = 0xec00_0010_9000_0000;

/// When the server's reply departed, as the reply itself tells it.
const DEPARTURE: u64 = 0xec00_0010_9000_0100;

/// When the reply arrived.
const ARRIVAL: u64 = 0xec00_0010_a000_0000;

/// The digest of the first request.
const REQUEST_DIGEST: u128 = 0xc54a_79b8_7ff9_9597_5180_769b_dd0a_5236;

/// The digest of the reply of a primary server with T, R and the departure.
const DIGEST: u128 = 0xb26e_5765_47e4_15eb_d846_1f86_4849_12fe;

/// The transmit stamp of the second request, and when an interleaved reply to it arrived.
const NEXT_T: u64 = 0xec00_0011_8000_0000;

const NEXT_ARRIVAL: u64 = 0xec00_0011_a000_0000;

/// The first four words of a kiss-o'-death, with its code.
const RATE: u128 = 0xe400_0600_0000_0000_0000_0000_5241_5445;

const DENY: u128 = 0xe400_0600_0000_0000_0000_0000_4445_4e59;

// A new client with the key number 7.
fn client() -> Result<Client, Fail> {
    Ok(Client::new(Key::new(Algorithm::Md5, b"key")?, 7))
}

// The same, which has made the first request.
fn asked() -> Result<Client, Fail> {
    let mut client = client()?;
    let _request = client.request(moment(T));
    Ok(client)
}

// The reply to the first request.
fn first_reply() -> [u8; 68] {
    reply(PRIMARY, T, R, DEPARTURE, DIGEST)
}

// An interleaved reply to the second request, which tells when the first one departed.
fn interleaved_reply() -> [u8; 68] {
    reply(
        PRIMARY,
        ARRIVAL,
        0xec00_0011_9000_0000,
        0xec00_0010_9000_0180,
        0xfb0a_d8a5_6707_77ce_79f6_9302_9cc5_eb80,
    )
}

// A kiss-o'-death to the first request.
fn kiss(words: u128, digest: u128) -> [u8; 68] {
    packet([words, stamps(0, T), stamps(0, T)], digest)
}

// The sample of the first request, by a departure that a reply tells.
fn sample(departure: u64, interleaved: bool) -> Taken {
    Taken::Sample(Sample {
        t1: Stamp(T),
        t2: Stamp(R),
        t3: Stamp(departure),
        t4: Stamp(ARRIVAL),
        interleaved,
    })
}

// The request that a client makes at a stamp.
fn request(client: &mut Client, at: u64) -> Reply {
    client.request(moment(at))
}

// What a client takes octets for that come at a stamp.
fn take(client: &mut Client, octets: &[u8], at: u64) -> Taken {
    client.take(octets, moment(at))
}

// After its first request a client takes these octets so; and then the reply to that is still a sample.
fn takes(rt: &impl Abort, octets: &[u8], expected: Taken) -> Result<(), Fail> {
    let mut client = asked()?;
    let taken = take(&mut client, octets, ARRIVAL);
    let then = take(&mut client, &first_reply(), ARRIVAL);
    assert_eq!(rt; [taken, then], [expected, sample(DEPARTURE, false)]);
    Ok(())
}

// After its first request a client refuses these octets so.
fn refuses(rt: &impl Abort, octets: &[u8], why: Distrust) -> Result<(), Fail> {
    takes(rt, octets, Taken::Refused(why))
}

/// The digest of the second request behind the first exchange.
const NEXT_DIGEST: u128 = 0xff09_9f8a_9ae2_53f3_a818_3e89_2fcd_9325;

/// What is taken where no request is open.
const NOTHING_ASKED: Taken = Taken::Refused(Distrust::NothingAsked);

#[test]
fn an_exchange_and_an_interleaved_one(rt: HostRuntime) -> Result<(), Fail> {
    let mut client = client()?;
    let first = request(&mut client, T);
    assert!(rt; first.octets() == query(0, 0, T, REQUEST_DIGEST).as_slice());
    assert!(rt; take(&mut client, &first_reply(), ARRIVAL) == sample(DEPARTURE, false));
    let second = request(&mut client, NEXT_T);
    assert!(rt; second.octets() == query(R, ARRIVAL, NEXT_T, NEXT_DIGEST).as_slice());
    let taken = sample(0xec00_0010_9000_0180, true);
    assert!(rt; take(&mut client, &interleaved_reply(), NEXT_ARRIVAL) == taken);
    assert!(rt; take(&mut client, &interleaved_reply(), NEXT_ARRIVAL) == NOTHING_ASKED);
    Ok(())
}

#[test]
fn an_exchange_is_carried_by_one_request(rt: HostRuntime) -> Result<(), Fail> {
    let mut client = asked()?;
    assert!(rt; take(&mut client, &first_reply(), ARRIVAL) == sample(DEPARTURE, false));
    let _second = request(&mut client, NEXT_T);
    let third = request(&mut client, T);
    assert!(rt; third.octets() == query(0, 0, T, REQUEST_DIGEST).as_slice());
    let taken = take(&mut client, &interleaved_reply(), NEXT_ARRIVAL);
    assert!(rt; taken == Taken::Refused(Distrust::Origin));
    Ok(())
}

#[test]
fn nothing_is_taken_before_a_request(rt: HostRuntime) -> Result<(), Fail> {
    let mut client = client()?;
    assert!(rt; take(&mut client, &first_reply(), ARRIVAL) == NOTHING_ASKED);
    Ok(())
}

#[test]
fn what_is_no_reply_is_refused(rt: HostRuntime) -> Result<(), Fail> {
    refuses(&rt, &[0; 47], Distrust::Malformed(Malformed::Short))?;
    refuses(&rt, &query(0, 0, T, REQUEST_DIGEST), Distrust::Mode)
}

// The first octets of a packet, as if the rest had been cut off.
fn cut(octets: &[u8; 68], len: usize) -> &[u8]
    requires { len ≤ 68 }
{
    &octets[..len]
}

// The reply to the first request with another key number below 256.
fn renumbered(number: u8) -> [u8; 68] {
    let mut octets = first_reply();
    octets[51] = number;
    octets
}

#[test]
fn what_is_not_authentic_is_refused(rt: HostRuntime) -> Result<(), Fail> {
    refuses(&rt, cut(&first_reply(), 48), Distrust::Unsigned)?;
    refuses(&rt, cut(&renumbered(1), 52), Distrust::Unsigned)?;
    takes(&rt, cut(&renumbered(0), 52), Taken::Nak)?;
    let forged = reply(PRIMARY, T, R, DEPARTURE, DIGEST ^ 1);
    refuses(&rt, &forged, Distrust::Mac)
}

// The first four words of a reply of version 3, and of one from a server whose clock is unsynchronised: leap 3, stratum 0 and no
// reference identifier.
const VERSION_3: u128 = 0x1c01_06ec_0000_0000_0000_0010_4e49_5354;

const UNSYNCHRONISED: u128 = 0xe400_06ec_0000_0000_0000_0010_0000_0000;

// Replies by their first words, their origin, their receive stamp and their digest, and why each is refused.
const REFUSED: [(u128, u64, u64, u128, Distrust); 4] = [
    (
        VERSION_3,
        T,
        R,
        0x7bcf_fcfd_4bb6_864e_dc41_0877_399f_16c8,
        Distrust::Version,
    ),
    (
        PRIMARY,
        R,
        R,
        0xae48_aadb_72a1_5387_7128_f6c7_d744_95d7,
        Distrust::Origin,
    ),
    (
        PRIMARY,
        T,
        0,
        0x600f_2e68_3305_9d39_4640_7627_9ae8_18b8,
        Distrust::Stamps,
    ),
    (
        UNSYNCHRONISED,
        T,
        R,
        0xc602_af80_14c0_53b9_0082_70a8_701e_4e93,
        Distrust::Unsynchronised,
    ),
];

#[test]
fn replies_to_another_request_or_with_no_time_are_refused(rt: HostRuntime) -> Result<(), Fail> {
    for (words, origin, receive, digest, why) in REFUSED {
        let octets = reply(words, origin, receive, DEPARTURE, digest);
        refuses(&rt, &octets, why)?;
    }
    Ok(())
}

#[test]
fn a_deny_leaves_the_request_open(rt: HostRuntime) -> Result<(), Fail> {
    takes(&rt, cut(&kiss(DENY, 0), 48), Taken::Deny)
}

#[test]
fn a_rate_ends_the_request(rt: HostRuntime) -> Result<(), Fail> {
    let rate = kiss(RATE, 0x5cc5_bdaa_8b50_2fef_0193_f560_3208_e8b7);
    let mut client = asked()?;
    assert!(rt; take(&mut client, &rate, ARRIVAL) == Taken::Rate);
    assert!(rt; take(&mut client, &rate, ARRIVAL) == NOTHING_ASKED);
    assert!(rt; take(&mut client, &first_reply(), ARRIVAL) == NOTHING_ASKED);
    Ok(())
}

// A sample of the first request by the three later stamps, in units of 2^-32 seconds after the first.
fn later(t2: u64, t3: u64, t4: u64) -> Sample {
    Sample {
        t1: Stamp(T),
        t2: Stamp(T.wrapping_add(t2)),
        t3: Stamp(T.wrapping_add(t3)),
        t4: Stamp(T.wrapping_add(t4)),
        interleaved: false,
    }
}

// Two samples of the exchanges above.
const BASIC: [u64; 3] = [0x1000_0000, 0x1000_0100, 0x2000_0000];

const INTERLEAVED: [u64; 3] = [0x1000_0000, 0x1000_0180, 0x2000_0000];

// A server whose clock is two and a half seconds behind, and a quarter of a second on the way.
const BEHIND: [u64; 3] = [0xffff_fffd_a000_0000, 0xffff_fffd_a000_0000, 0x4000_0000];

// Half a unit behind, which is less than half a nanosecond.
const HALF_BEHIND: [u64; 3] = [0, 0, 1];

#[test]
fn offset_and_delay(rt: HostRuntime) {
    for ([t2, t3, t4], offset_twice, delay) in [
        (BASIC, 256, 536_870_656),
        (INTERLEAVED, 384, 536_870_528),
    ] {
        let sample = later(t2, t3, t4);
        assert!(rt; sample.offset_twice() == offset_twice);
        assert!(rt; sample.delay() == delay);
    }
}

// Samples by their later stamps, and what is printed of each.
const PRINTED: [([u64; 3], &str); 4] = [
    (BASIC, "offset 0.000000030 s, delay 0.124999940 s"),
    (INTERLEAVED, "offset 0.000000045 s, delay 0.124999911 s"),
    (BEHIND, "offset -2.500000000 s, delay 0.250000000 s"),
    (HALF_BEHIND, "offset 0.000000000 s, delay 0.000000000 s"),
];

#[test]
fn offset_and_delay_are_printed(rt: HostRuntime) -> Result<(), Fail> {
    for ([t2, t3, t4], printed) in PRINTED {
        let text = format!(in rt.alloc(); "{}", later(t2, t3, t4))?;
        assert_eq!(rt; text.as_str(), printed);
    }
    Ok(())
}
