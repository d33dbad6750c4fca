//! Values from the rules in words: eight exchanges are saved with fresh stamps, and a departure replaces a
//! transmit stamp.

use ntp_customer::{Slot, Slots};
use ntp_packet::Stamp;
use std::alloc::Global;
use std::test::Fail;
use test_support::moment;

/// The stamp of a receipt.
const RECEIPT: u64 = 0xec00_0010_9000_0000;

/// The stamps of nine receipts, a second apart: the first, the second and the last.
const FIRST: u64 = 0xec00_0010_0000_0000;

const SECOND: u64 = 0xec00_0011_0000_0000;

const NINTH: u64 = 0xec00_0018_0000_0000;

// Saves an exchange as a time reply does: with the first free stamps from these on.
fn save(slots: &mut Slots, receipt: u64, transmit: u64) {
    let receive = slots.new_receive(Stamp(receipt));
    let transmit = slots.new_transmit(Stamp(transmit), receive);
    slots.push(receive, transmit);
}

// The exchange with this receive stamp.
fn found(slots: &Slots, receive: u64) -> Option<Slot> {
    slots.find(Stamp(receive))
}

// Whether the departure of the reply of an exchange is noted.
fn departs(slots: &mut Slots, receive: u64, departure: u64) -> bool {
    slots.depart(Stamp(receive), moment(departure))
}

// Whether an exchange is used just now.
fn spends(slots: &mut Slots, receive: u64) -> bool {
    slots.spend(Stamp(receive))
}

// The first free receive stamp from one on.
fn free(slots: &Slots, receipt: u64) -> u64 {
    slots.new_receive(Stamp(receipt)).0
}

// New slots.
fn empty(alloc: Global) -> Result<Slots, Fail> {
    Ok(Slots::new(alloc).or(Err("no memory"))?)
}

// The exchange with these stamps, which no reply has used.
fn unused(receive: u64, transmit: u64) -> Option<Slot> {
    Some(Slot {
        receive: Stamp(receive),
        transmit: Stamp(transmit),
        used: false,
    })
}

#[test]
fn ample_memory_is_enough(rt: HostRuntime) {
    assert!(rt; Slots::new(rt.alloc()).is_ok());
}

#[test]
fn oldest_of_nine_goes(rt: HostRuntime) -> Result<(), Fail> {
    let mut slots = empty(rt.alloc())?;
    for second in 0..9u64 {
        let receipt = FIRST + (second << 32);
        save(&mut slots, receipt, receipt + 0x100);
    }
    assert!(rt; found(&slots, FIRST).is_none());
    assert!(rt; found(&slots, SECOND) == unused(SECOND, SECOND + 0x100));
    assert!(rt; found(&slots, NINTH) == unused(NINTH, NINTH + 0x100));
    // The stamp of the oldest that is saved is taken; that of the one that went is free.
    assert!(rt; free(&slots, SECOND) == SECOND + 1);
    assert!(rt; free(&slots, FIRST) == FIRST);
    Ok(())
}

#[test]
fn saved_stamps_are_avoided(rt: HostRuntime) -> Result<(), Fail> {
    let mut slots = empty(rt.alloc())?;
    for (receipt, transmit) in [(0, 0x100), (0, 0x100), (0x100, 0x101)] {
        save(&mut slots, RECEIPT + receipt, RECEIPT + transmit);
    }
    for (receive, transmit) in [(0, 0x100), (1, 0x100), (0x101, 0x102)] {
        let found = found(&slots, RECEIPT + receive);
        assert!(rt; found == unused(RECEIPT + receive, RECEIPT + transmit));
    }
    Ok(())
}

#[test]
fn departures_replace_the_transmit_stamp(rt: HostRuntime) -> Result<(), Fail> {
    let mut slots = empty(rt.alloc())?;
    save(&mut slots, RECEIPT, RECEIPT + 0x100);
    // A receive stamp is passed over.
    for (departure, transmit) in [(0x180, 0x180), (0x200, 0x200), (0, 1)] {
        assert!(rt; departs(&mut slots, RECEIPT, RECEIPT + departure));
        assert!(rt; found(&slots, RECEIPT) == unused(RECEIPT, RECEIPT + transmit));
    }
    assert!(rt; !departs(&mut slots, RECEIPT + 1, RECEIPT + 0x180));
    Ok(())
}

#[test]
fn used_exchange_stays_and_does_not_depart(rt: HostRuntime) -> Result<(), Fail> {
    let mut slots = empty(rt.alloc())?;
    save(&mut slots, RECEIPT, RECEIPT + 0x100);
    assert!(rt; spends(&mut slots, RECEIPT));
    assert!(rt; !spends(&mut slots, RECEIPT));
    assert!(rt; !departs(&mut slots, RECEIPT, RECEIPT + 0x180));
    let slot = found(&slots, RECEIPT).ok_or("no slot")?;
    assert!(rt; slot.used && slot.transmit == Stamp(RECEIPT + 0x100));
    Ok(())
}
