//! Answers of a real daemon, and rows at the limits that were worked out by hand.

use ntp_client::{
    ClockAnswer, ClockLimits, Distrust, Follower, Reading, Taken, reference_unsynchronised,
    reference_where_read, state_in_force,
};
use ntp_mac::{Algorithm, Key, Reply, seal};
use ntp_packet::{Header, Short, Stamp, read_header};
use ntp_reply::{BadReference, Reference};
use std::process::Abort;
use std::test::Fail;
use test_support::{moment, packet, stamps};

/// Believed for 16 s, up to a root distance of 1 s, a clock set 4,096 s ago and a step of 0.5 s.
const LIMITS: ClockLimits = ClockLimits {
    valid_for: 16_000_000_000,
    most_root_distance: Short(0x1_0000),
    most_reference_age: Some(4_096),
    most_step: 500_000_000,
};

/// A second in nanoseconds.
const SECOND: u64 = 1_000_000_000;

/// A second in units of 2^-32 seconds.
const UNITS: u64 = 1 << 32;

/// An hour and a quarter of a second in these.
const HOUR: u64 = 3_600 * UNITS;

const QUARTER: u64 = UNITS / 4;

/// A thousandth of a second in nanoseconds.
const MILLISECOND: u64 = 1_000_000;

/// When a request left and when the answer of chronyd 4.3 came. Twice the offset is 296,323 - 99,762 = 196,561 units of 2^-32 s, or
/// 1.5 units of 2^-16 s; the delay is 684,032 - 287,947 = 396,085 of them, or 6.04.
const ASKED: u64 = 0xeeaf_7485_63a5_4800;

const ANSWERED: u64 = 0xeeaf_7485_63af_b800;

// An exchange with chronyd: the first words and the digest of its answer; when its clock was set; and when the request left and came,
// and the answer left and came.
#[derive(Clone, Copy)]
struct Exchange {
    words: u128,
    digest: u128,
    set: u64,
    asked: u64,
    came: u64,
    left: u64,
    answered: u64,
}

/// That exchange with one that followed another chronyd.
const CHRONYD: Exchange = Exchange {
    words: 0x2404_06e7_0000_0001_0000_0001_7f00_0001,
    digest: 0x8d18_bb5b_0e23_7b00_93d3_f5e8_2dd8_bc92,
    set: 0xeeaf_7485_22f1_ad4e,
    asked: ASKED,
    came: 0xeeaf_7485_63a9_cd83,
    left: 0xeeaf_7485_63ae_324e,
    answered: ANSWERED,
};

/// One with chronyd 4.3 that followed nothing.
const CHRONYD_ALONE: Exchange = Exchange {
    words: 0xe400_06e7_0001_0000_0001_0000_0000_0000,
    digest: 0xed2c_6099_5a3a_3c07_398e_fcc0_b091_7556,
    set: 0,
    asked: 0xeeaf_7486_63c5_c000,
    came: 0xeeaf_7486_63ca_0893,
    left: 0xeeaf_7486_63cf_68b8,
    answered: 0xeeaf_7486_63d0_9800,
};

impl Exchange {
    // The answer.
    fn answer(&self) -> [u8; 68] {
        let times = [stamps(self.set, self.asked), stamps(self.came, self.left)];
        packet([self.words, times[0], times[1]], self.digest)
    }

    // What a follower that asked then takes the answer for.
    fn taken(&self, follower: &mut Follower) -> Taken {
        let _request = follower.request(at(self.asked));
        follower.take(&self.answer(), at(self.answered))
    }
}

// The state that chronyd told, with the delay of the exchange, another dispersion, and the best precision that is told.
fn state_of_chronyd(dispersion: u32) -> Result<Reference, BadReference> {
    Reference::new(
        0,
        4,
        -16,
        Short(1 + 7),
        Short(dispersion),
        [127, 0, 0, 1],
        Stamp(CHRONYD.set),
    )
}

// What the clocks showed `seconds` seconds after the request left, which was at one second of the ticks.
fn seconds_later(seconds: u64) -> Reading {
    Reading {
        clock: moment(ASKED.wrapping_add(seconds.wrapping_mul(UNITS))),
        ticks: SECOND.wrapping_add(seconds.wrapping_mul(SECOND)),
    }
}

// What they showed when the host's clock showed this stamp.
fn at(stamp: u64) -> Reading {
    let units = u128::from(stamp.wrapping_sub(ASKED));
    let nanos = (units * u128::from(SECOND)) >> 32;
    Reading {
        clock: moment(stamp),
        ticks: SECOND.wrapping_add(nanos as u64),
    }
}

fn key() -> Result<Key, Fail> {
    Ok(Key::new(Algorithm::Md5, b"key")?)
}

// One that has asked nothing.
fn follower() -> Result<Follower, Fail> {
    Ok(Follower::new(key()?, 7, LIMITS))
}

// One that has the first answer of chronyd.
fn following() -> Result<Follower, Fail> {
    let mut follower = follower()?;
    match CHRONYD.taken(&mut follower) {
        Taken::Sample(_) => Ok(follower),
        _ => Err(Fail::from("no sample")),
    }
}

// The state that is in force `seconds` seconds after the request left.
fn in_force(follower: &Follower, seconds: u64) -> Reference {
    follower.in_force(seconds_later(seconds))
}

#[test]
fn before_an_answer_nothing_is_known(rt: HostRuntime) -> Result<(), Fail> {
    let follower = follower()?;
    let state = follower.in_force(at(ANSWERED));
    assert!(rt; state == reference_unsynchronised());
    assert!(rt; follower.age(SECOND).is_none());
    assert!(rt; !follower.has_to_read_anew(at(ANSWERED)));
    Ok(())
}

#[test]
fn chronyd_is_followed(rt: HostRuntime) -> Result<(), Fail> {
    let follower = following()?;
    assert!(rt; follower.learned().is_some());
    assert!(rt; follower.is_followed(at(ANSWERED)));
    assert!(rt; follower.age(11 * SECOND) == Some(10 * SECOND));
    // 1 as told, and 1.5 for the offset, rounded up.
    assert!(rt; in_force(&follower, 0) == state_of_chronyd(3)?);
    // 10 s later it is 10 · 15 · 10^-6 · 2^16 = 9.8 more, rounded up.
    assert!(rt; in_force(&follower, 10) == state_of_chronyd(13)?);
    // 16 s later it is not believed.
    assert!(rt; in_force(&follower, 16) == reference_unsynchronised());
    Ok(())
}

#[test]
fn chronyd_that_follows_nothing_is_not_followed(rt: HostRuntime) -> Result<(), Fail> {
    let mut follower = following()?;
    let taken = CHRONYD_ALONE.taken(&mut follower);
    assert!(rt; taken == Taken::Refused(Distrust::Unsynchronised));
    assert!(rt; follower.learned().is_none());
    assert!(rt; !follower.is_followed(seconds_later(10)));
    assert!(rt; in_force(&follower, 10) == reference_unsynchronised());
    Ok(())
}

// A host whose clock is set, and a daemon that reads it and tells a dispersion of 200.
#[derive(Drop)]
struct Host {
    follower: Follower,
    // How far the clock was set, in units of 2^-32 s, modulo 2^64.
    set: u64,
}

impl Host {
    fn new() -> Result<Host, Fail> {
        Ok(Host {
            follower: follower()?,
            set: 0,
        })
    }

    // What the clocks show `seconds` seconds after the first question.
    fn reading(&self, seconds: u64) -> Reading {
        let Reading { clock, ticks } = seconds_later(seconds);
        Reading {
            clock: moment(clock.stamp.0.wrapping_add(self.set)),
            ticks,
        }
    }

    // A question, and what its answer with this reference time is taken for.
    fn ask(&mut self, seconds: u64, set: u64) -> Result<Taken, Fail> {
        let now = self.reading(seconds);
        let question = self.follower.request(now);
        let Some(asked) = read_header(question.octets()) else {
            return Err(Fail::from("no header"));
        };
        let stamps = [Stamp(set), asked.transmit(), now.clock.stamp];
        let answer = answer_of(stamps, now.clock.stamp)?;
        Ok(self.follower.take(answer.octets(), now))
    }

    // The root dispersion that a reply tells `seconds` seconds after the first question.
    fn dispersion(&self, seconds: u64) -> u32 {
        let state = self.follower.in_force(self.reading(seconds));
        state.root_dispersion().0
    }

    // The same behind what happens then.
    fn dispersion_behind(&mut self, seconds: u64, then: Then) -> Result<u32, Fail> {
        match then {
            Then::Nothing => {}
            Then::Look => {
                let now = self.reading(seconds);
                if !self.follower.look(now) {
                    return Err(Fail::from("the clock was not set"));
                }
            }
            Then::Answer(set) => {
                let _taken = self.ask(seconds, set)?;
            }
        }
        Ok(self.dispersion(seconds))
    }
}

// What happens beside the clock: nothing, a look at it, or an answer with this reference time.
#[derive(Clone, Copy)]
enum Then {
    Nothing,
    Look,
    Answer(u64),
}

// How far the clock is set; how many seconds after the first question; what happens then; and the dispersion that replies tell after it.
type Step = (u64, u64, Then, u32);

// A new host goes these steps.
fn goes(rt: &impl Abort, steps: &[Step], name: &str) -> Result<(), Fail> {
    let mut host = Host::new()?;
    for (set, seconds, then, told) in steps {
        host.set = *set;
        let dispersion = host.dispersion_behind(*seconds, *then)?;
        assert_eq!(rt; dispersion, *told, "{name}: {set} at {seconds}");
    }
    Ok(())
}

// An answer: its reference time, its origin and its receipt, and when it left.
fn answer_of(stamps: [Stamp; 3], sent: Stamp) -> Result<Reply, Fail> {
    let [set, asked, came] = stamps;
    let (delay, dispersion) = (Short(1), Short(200));
    let header = Header::new(
        0, 4, 4, 2, 6, -20, delay, dispersion, *b"TEST", set, asked, came, sent,
    );
    signed(&header)
}

// A header, signed by the daemon.
fn signed(header: &Header) -> Result<Reply, Fail> {
    let mut reply = Reply::from_header(header);
    seal(&key()?, 7, &mut reply);
    Ok(reply)
}

// A reference time from before the first question, and a later one.
const BEFORE: u64 = ASKED - 10 * UNITS;

const LATER: u64 = ASKED - 5 * UNITS;

#[test]
fn a_clock_that_was_set_waits_for_an_update(rt: HostRuntime) -> Result<(), Fail> {
    for (name, set, told) in [
        ("by 2 s", 2 * UNITS, FAR),
        ("by 3,600 s", HOUR, FAR),
        ("back by 2 s", (2 * UNITS).wrapping_neg(), FAR),
        ("back by 3,600 s", HOUR.wrapping_neg(), FAR),
        // 0.25 · 2^16 more.
        ("by 0.25 s", QUARTER, 200 + 16_384),
        ("back by 0.25 s", QUARTER.wrapping_neg(), 200 + 16_384),
    ] {
        let update = ASKED.wrapping_add(set).wrapping_add(5 * UNITS / 2);
        let steps = [
            (0, 0, Then::Answer(BEFORE), 200),
            (0, 1, Then::Nothing, 201),
            (set, 0, Then::Nothing, told),
            (set, 1, Then::Answer(BEFORE), told),
            (set, 2, Then::Answer(LATER), told),
            (set, 3, Then::Answer(update), 200),
        ];
        goes(&rt, &steps, name)?;
    }
    Ok(())
}

#[test]
fn the_first_answer_behind_a_step_shows_no_update(rt: HostRuntime) -> Result<(), Fail> {
    let set = 2 * UNITS;
    let now = ASKED + 3 * UNITS;
    let steps = [
        (0, 0, Then::Answer(BEFORE), 200),
        (set, 1, Then::Answer(now), FAR),
        (set, 2, Then::Answer(now + UNITS), 200),
    ];
    goes(&rt, &steps, "set by 2 s")
}

#[test]
fn there_and_back_costs_nothing(rt: HostRuntime) -> Result<(), Fail> {
    let steps = [
        (0, 0, Then::Answer(BEFORE), 200),
        (60 * UNITS, 1, Then::Look, FAR),
        (0, 1, Then::Look, 201),
        (0, 2, Then::Answer(BEFORE), 200),
    ];
    goes(&rt, &steps, "there and back")
}

#[test]
fn a_step_within_an_exchange_refuses_the_answer(rt: HostRuntime) -> Result<(), Fail> {
    let mut follower = follower()?;
    let _request = follower.request(at(ASKED));
    let mut set = at(ANSWERED);
    set.ticks = set.ticks.wrapping_sub(2 * MILLISECOND);
    let taken = follower.take(&CHRONYD.answer(), set);
    assert!(rt; taken == Taken::Refused(Distrust::NothingAsked));
    assert!(rt; follower.learned().is_none());
    Ok(())
}

#[test]
fn the_clocks_are_read_anew_behind_a_step(rt: HostRuntime) -> Result<(), Fail> {
    let mut follower = following()?;
    let mut shown = seconds_later(1);
    assert!(rt; !follower.has_to_read_anew(shown));
    shown.ticks = shown.ticks.wrapping_sub(2 * MILLISECOND);
    assert!(rt; follower.has_to_read_anew(shown));
    // The step was seen, and no answer has come since.
    assert!(rt; follower.look(shown));
    assert!(rt; follower.has_to_read_anew(shown));
    Ok(())
}

#[test]
fn a_late_answer_is_no_answer_to_the_next_question(rt: HostRuntime) -> Result<(), Fail> {
    let mut follower = follower()?;
    let _request = follower.request(at(ASKED));
    let _request = follower.request(seconds_later(1));
    let taken = follower.take(&CHRONYD.answer(), seconds_later(1));
    assert!(rt; taken == Taken::Refused(Distrust::Origin));
    Ok(())
}

// A kiss-o'-death to a question, which asks for fewer.
fn rate_of(question: &Reply) -> Result<Reply, Fail> {
    let asked = read_header(question.octets()).ok_or("no header")?;
    let kiss = Header::blank(4, 4)
        .with_leap(3)
        .with_reference_id(*b"RATE")
        .with_origin(asked.transmit());
    signed(&kiss)
}

#[test]
fn a_rate_slows_the_questions_for_an_hour(rt: HostRuntime) -> Result<(), Fail> {
    let mut follower = follower()?;
    assert!(rt; follower.period(SECOND) == SECOND);
    let kiss = rate_of(&follower.request(at(ASKED)))?;
    assert!(rt; follower.take(kiss.octets(), at(ASKED)) == Taken::Rate);
    assert!(rt; follower.period(SECOND) == 8 * SECOND);
    assert!(rt; follower.period(3_601 * SECOND - 1) == 8 * SECOND);
    assert!(rt; follower.period(3_601 * SECOND) == SECOND);
    Ok(())
}

#[test]
fn a_clock_that_was_not_read_is_unsynchronised(rt: HostRuntime) -> Result<(), Fail> {
    let state = state_of_chronyd(3)?;
    assert!(rt; reference_where_read(Some(moment(0)), state) == reference_unsynchronised());
    assert!(rt; reference_where_read(Some(moment(1)), state) == state);
    assert!(rt; reference_where_read(None, state) == state);
    Ok(())
}

/// When the answers of the rows came.
const CAME: u64 = 0xec00_0010_0000_0000;

/// Twice an offset of 1 ms: in units of 2^-16 s it is 65.5.
const TWICE_1_MS: i128 = 8_589_935;

/// The dispersion that is told of a clock that is not believed, 16 s.
const FAR: u32 = 0x10_0000;

// An answer that came then, of a clock that was set at a stamp.
fn answer(
    leap: u8,
    stratum: u8,
    root_delay: u32,
    set: u64,
    offset_twice: i128,
) -> Result<ClockAnswer, BadReference> {
    let delay = Short(root_delay);
    let state = Reference::new(leap, stratum, -20, delay, Short(200), *b"TEST", Stamp(set))?;
    let base = Reading {
        clock: moment(CAME),
        ticks: 100 * SECOND,
    };
    Ok(ClockAnswer {
        state,
        offset_twice,
        sent: Stamp(CAME),
        ticks: base.ticks,
        base,
    })
}

// The root dispersion that replies tell `nanos` nanoseconds of the monotonic clock and `units` units of the host's after an answer.
fn dispersion(answer: &ClockAnswer, nanos: u64, units: u64) -> u32 {
    let ticks = (100 * SECOND).wrapping_add(nanos);
    let clock = moment(CAME.wrapping_add(units));
    let state = state_in_force(&LIMITS, Some(answer), Reading { clock, ticks });
    state.root_dispersion().0
}

// When the clock was set, 4,096 s before the answers of the rows are 10 s old.
const SET: u64 = CAME - 4_086 * UNITS;

// Answers by their leap, stratum, root delay, reference time and twice their offset; and the dispersion that replies tell 10 s later.
// It is 200 + 66 + 10 = 276 then, and the root distance with a delay of 130,520 is 130,520 / 2 + 276 = 65,536, or 1 s.
const ANSWERS: [(&str, u8, u8, u32, u64, i128, u32); 8] = [
    ("all at their limits", 0, 2, 130_520, SET, TWICE_1_MS, 276),
    ("ahead of the daemon", 2, 15, 130_520, SET, -TWICE_1_MS, 276),
    ("a greater delay", 0, 2, 130_521, SET, TWICE_1_MS, FAR),
    ("set before that", 0, 2, 130_520, SET - 1, TWICE_1_MS, FAR),
    ("never set", 0, 2, 0, 0, TWICE_1_MS, FAR),
    (
        "set 0.5 s later",
        0,
        2,
        0,
        CAME + UNITS / 2,
        TWICE_1_MS,
        276,
    ),
    (
        "set still later",
        0,
        2,
        0,
        CAME + UNITS / 2 + 1,
        TWICE_1_MS,
        FAR,
    ),
    ("unsynchronised", 3, 16, 0, SET, TWICE_1_MS, FAR),
];

#[test]
fn a_reference_time_of_any_age_without_a_limit(rt: HostRuntime) -> Result<(), Fail> {
    let limits = ClockLimits {
        most_reference_age: None,
        ..LIMITS
    };
    // Half of what stamps can tell apart, and more: then it lies ahead.
    for (age, is_believed) in [(4_097, true), (0x7fff_ff00, true), (0x8000_0001, false)] {
        let set = CAME.wrapping_sub(UNITS.wrapping_mul(age));
        let answer = answer(0, 2, 0, set, 0)?;
        let state = state_in_force(&limits, Some(&answer), answer.base);
        assert!(rt; (state.leap() == 0) == is_believed, "set {age} s ago");
    }
    Ok(())
}

#[test]
fn what_was_learned_has_an_age_and_a_distance(rt: HostRuntime) -> Result<(), Fail> {
    let follower = following()?;
    let now = seconds_later(10);
    // Ten seconds, and what lies between the two stamps.
    assert!(rt; follower.reference_age(now) == Some(0xa_40b3_9ab2));
    // A delay of 8, and a dispersion of 13, in all twice.
    assert!(rt; follower.root_distance_twice(now) == Some(8 + 2 * 13));
    assert!(rt; follower.limits() == LIMITS);
    Ok(())
}

#[test]
fn answers_at_the_limits(rt: HostRuntime) -> Result<(), Fail> {
    for (name, leap, stratum, delay, set, offset_twice, expected) in ANSWERS {
        let answer = answer(leap, stratum, delay, set, offset_twice)?;
        let told = dispersion(&answer, 10 * SECOND, 10 * UNITS);
        assert!(rt; told == expected, "{name}: {told}");
    }
    Ok(())
}

// Ten seconds of both clocks, and half a second of the host's.
const NANOS_10: u64 = 10 * SECOND;

const UNITS_10: u64 = 10 * UNITS;

const HALF: u64 = UNITS / 2;

// What the clocks went on by behind an answer, and the dispersion that replies then tell.
const CLOCKS: [(&str, u64, u64, u32); 7] = [
    ("at once", 0, 0, 266),
    // 1 for a nanosecond by which the clocks went apart.
    ("just young", 16 * SECOND - 1, 16 * UNITS, 283),
    ("old", 16 * SECOND, 16 * UNITS, FAR),
    // The dispersion has grown by 0.5 s too.
    (
        "put forward by 0.5 s",
        NANOS_10,
        UNITS_10 + HALF,
        276 + 32_768,
    ),
    ("forward by more", NANOS_10, UNITS_10 + HALF + 1, FAR),
    ("put back by 0.5 s", NANOS_10, UNITS_10 - HALF, 276 + 32_768),
    ("back by more", NANOS_10, UNITS_10 - HALF - 1, FAR),
];

#[test]
fn clocks_at_the_limits(rt: HostRuntime) -> Result<(), Fail> {
    let answer = answer(1, 2, 0, CAME, TWICE_1_MS)?;
    for (name, nanos, units, expected) in CLOCKS {
        let told = dispersion(&answer, nanos, units);
        assert!(rt; told == expected, "{name}: {told}");
    }
    Ok(())
}
