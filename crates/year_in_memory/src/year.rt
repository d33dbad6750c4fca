//! The year, day by day.

use crate::asking::Asker;
use crate::commands::LINES;
use crate::host::SECOND;
use crate::script::{Script, time};
use ntp_mac::Algorithm;
use ntp_service::Address;
use std::alloc::Global;
use std::test::Fail;
use test_support::reference;

/// How many days it has.
const DAYS: u16 = 365;

/// An hour, in seconds.
const HOUR: u32 = 3_600;

/// A customer all the year; one that asks more often than its budget allows; and one that comes, goes, and comes again.
const STEADY: Address = Address([192, 0, 2, 10]);

const EAGER: Address = Address([192, 0, 2, 20]);

const CHANGING: Address = Address([192, 0, 2, 30]);

/// Who is no customer.
const STRANGER: Address = Address([198, 51, 100, 7]);

/// What happens in the year.
pub fn year(alloc: Global) -> Result<Script, Fail> {
    let mut script = Script::new(alloc, reference()?);
    script.wait(0)?;
    for day in 0..DAYS {
        lines(&mut script, day)?;
        steady_asks(&mut script, day)?;
        eager_asks(&mut script, day)?;
        others_send(&mut script, day)?;
        changing_asks(&mut script, day)?;
        stands_still(&mut script, day)?;
    }
    script.ends(time(DAYS, 0, 0))?;
    Ok(script)
}

// The lines of the day come at one o'clock on odd days, and on even ones at ten, while the first datagram does.
fn lines(script: &mut Script, day: u16) -> Result<(), Fail> {
    let at = if day % 2 == 1 {
        time(day, HOUR, 0)
    } else {
        time(day, 10 * HOUR, 0).saturating_sub(5_000_000)
    };
    for (due, line) in LINES {
        if due == day {
            script.line(at, line)?;
        }
    }
    if day % 2 == 1 {
        script.wait(at.saturating_add(SECOND))?;
    }
    Ok(())
}

// Two queries each day: a basic one, and one about its exchange.
fn steady_asks(script: &mut Script, day: u16) -> Result<(), Fail> {
    let mut asker = Asker::new(STEADY, 7, Algorithm::Md5, b"key")?;
    let at = time(day, 10 * HOUR, 0);
    script.wait_before(at)?;
    if day % 73 == 72 {
        script.fails_to_receive(at)?;
    }
    asker.ask(script, at, true)?;
    let at = time(day, 10 * HOUR + 100, 0);
    script.wait_before(at)?;
    asker.ask(script, at, day % 50 != 49)
}

// Six queries each day at once. The budget allows fewer, and none on the day on which the clock shows the moments of the one before.
fn eager_asks(script: &mut Script, day: u16) -> Result<(), Fail> {
    let mut asker = Asker::new(EAGER, 8, Algorithm::Sha1, b"other")?;
    script.wait_before(time(day, 11 * HOUR, 0))?;
    for query in 0..6u16 {
        asker.ask(script, time(day, 11 * HOUR, 20 * query), true)?;
    }
    Ok(())
}

// Forged queries in the steady customer's name once a week, unsigned ones each fifth day, and each day a stranger's and garbage.
fn others_send(script: &mut Script, day: u16) -> Result<(), Fail> {
    if day % 7 == 0 {
        forger_asks(script, day)?;
    }
    if day % 5 == 0 {
        let mut unsigned = [0; 48];
        unsigned[0] = 0x23;
        send(script, time(day, 13 * HOUR, 0), STEADY, &unsigned)?;
    }
    let at = time(day, 14 * HOUR, 0);
    script.wait_before(at)?;
    Asker::new(STRANGER, 7, Algorithm::Md5, b"key")?.ask(script, at, true)?;
    // Of one octet again and again, which is no packet that is served: with the length of one it has a version or a mode that is not.
    let garbage = [(day % 256) as u8; 1_092];
    let length = usize::from(day).saturating_mul(3).min(1_092);
    send(script, time(day, 15 * HOUR, 0), EAGER, &garbage[..length])
}

// Octets come from an address.
fn send(script: &mut Script, at: u64, address: Address, octets: &[u8]) -> Result<(), Fail> {
    script.wait_before(at)?;
    script.datagram(at, address, octets, true)?;
    Ok(())
}

// Six queries under another key in the steady customer's name.
fn forger_asks(script: &mut Script, day: u16) -> Result<(), Fail> {
    let mut forger = Asker::new(STEADY, 7, Algorithm::Md5, b"guess")?;
    script.wait_before(time(day, 12 * HOUR, 0))?;
    for query in 0..6u16 {
        forger.ask(script, time(day, 12 * HOUR, 20 * query), true)?;
    }
    Ok(())
}

// A query each day under the key that the changing customer has by then, or will have; and once more under one that was retired.
fn changing_asks(script: &mut Script, day: u16) -> Result<(), Fail> {
    let at = time(day, 16 * HOUR, 0);
    script.wait_before(at)?;
    if day < 110 {
        Asker::new(CHANGING, 30, Algorithm::Md5, b"clock")?.ask(script, at, true)?;
    } else if day < 250 {
        Asker::new(CHANGING, 31, Algorithm::Sha1, b"newer")?.ask(script, at, true)?;
    } else {
        Asker::new(CHANGING, 32, Algorithm::Md5, b"last")?.ask(script, at, true)?;
    }
    if day == 130 {
        let at = time(day, 16 * HOUR + 1_800, 0);
        script.wait_before(at)?;
        Asker::new(CHANGING, 30, Algorithm::Md5, b"clock")?.ask(script, at, true)?;
    }
    Ok(())
}

// Each quarter of the year the process stands still for five seconds, in which three queries come. Two are dropped from hand. The last
// one is counted before the second one is dropped, and is swept out.
fn stands_still(script: &mut Script, day: u16) -> Result<(), Fail> {
    if day % 90 != 45 {
        return Ok(());
    }
    let mut asker = Asker::new(STEADY, 7, Algorithm::Md5, b"key")?;
    script.wait_before(time(day, 17 * HOUR, 0))?;
    for query in 0..3u16 {
        asker.ask_in_vain(script, time(day, 17 * HOUR, 1_000 * query))?;
    }
    script.wait(time(day, 17 * HOUR + 5, 0))?;
    script.wait(time(day, 17 * HOUR + 5, 0))
}
