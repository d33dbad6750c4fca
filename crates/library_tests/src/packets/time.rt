//! Stamps across an era, moments of Unix's count, and stamps that are free.

use ntp_packet::{Moment, Stamp, TimeFault, difference, fresh, near};

/// Stamps late and early in an era, and its half.
const LATE: u64 = 0xffff_ffff_0000_0000;

const EARLY: u64 = 0x0000_0001_0000_0000;

const HALF: u64 = 0x8000_0000_0000_0000;

/// The stamp of a receipt and the next one; a later stamp and the next two.
const RECEIPT: Stamp = Stamp(0xec00_0010_9000_0000);

const RECEIPT_1: Stamp = Stamp(0xec00_0010_9000_0001);

const LATER: Stamp = Stamp(0xec00_0010_9000_0100);

const LATER_1: Stamp = Stamp(0xec00_0010_9000_0101);

const LATER_2: Stamp = Stamp(0xec00_0010_9000_0102);

// The moment of an era with a stamp.
fn moment(era: u32, stamp: u64) -> Moment {
    Moment {
        era,
        stamp: Stamp(stamp),
    }
}

#[test]
fn differences_across_an_era(rt: HostRuntime) {
    for (a, b, expected) in [(1, u64::MAX, 2), (u64::MAX, 1, -2)] {
        assert_eq!(rt; difference(Stamp(a), Stamp(b)), expected);
    }
}

#[test]
fn moments_near_another(rt: HostRuntime) {
    for (stamp, pivot, expected) in [
        (EARLY, moment(0, LATE), Some(moment(1, EARLY))),
        (LATE, moment(1, EARLY), Some(moment(0, LATE))),
        (LATE, moment(0, 0), None),
        (EARLY, moment(u32::MAX, LATE), None),
        // Half an era apart it is the moment before.
        (HALF, moment(1, 0), Some(moment(0, HALF))),
    ] {
        assert_eq!(rt; near(Stamp(stamp), pivot), expected);
    }
}

#[test]
fn moments_of_unix(rt: HostRuntime) {
    for (seconds, nanos, expected) in [
        (0, 0, moment(0, 0x83aa_7e80_0000_0000)),
        // The last nanosecond of era 0, and the first of era 1.
        (2_085_978_495, 999_999_999, moment(0, 0xffff_ffff_ffff_fffb)),
        (2_085_978_496, 0, moment(1, 0)),
        (-2_208_988_800, 0, moment(0, 0)),
    ] {
        assert_eq!(rt; Moment::from_unix(seconds, nanos), Ok(expected));
    }
}

#[test]
fn times_that_are_no_moment(rt: HostRuntime) {
    for (seconds, nanos, expected) in [
        (-2_208_988_801, 0, TimeFault::BeforeEra0),
        (0, 1_000_000_000, TimeFault::BadNanos),
        (18_446_744_071_500_562_816, 0, TimeFault::EraTooLarge),
        (i128::MIN, u32::MAX, TimeFault::BeforeEra0),
        (i128::MAX, u32::MAX, TimeFault::BadNanos),
    ] {
        assert_eq!(rt; Moment::from_unix(seconds, nanos), Err(expected));
    }
}

#[test]
fn the_first_free_stamp_is_fresh(rt: HostRuntime) {
    for (from, taken, expected) in [
        // The stamp 0 is an unknown time, and never fresh.
        (Stamp(0), [].as_slice(), Stamp(1)),
        (Stamp(0), &[Stamp(1)], Stamp(2)),
        (Stamp(u64::MAX), &[Stamp(u64::MAX)], Stamp(1)),
        // A stamp that is free is fresh itself.
        (RECEIPT, &[], RECEIPT),
        (LATER, &[RECEIPT, RECEIPT_1], LATER),
        // Those that are taken are passed over.
        (RECEIPT, &[RECEIPT, LATER], RECEIPT_1),
        (LATER, &[RECEIPT, RECEIPT_1, LATER, LATER], LATER_1),
        (LATER_1, &[RECEIPT, RECEIPT_1, LATER_1], LATER_2),
    ] {
        assert_eq!(rt; fresh(from, taken), expected);
    }
}
