//! Looks at sources of commands, with receipts that were made up.

use crate::host::counting::Counting;
use ntp_host::{CommandsFile, HostClocks, HostFile};
use ntp_packet::{Moment, Stamp};
use ntp_port::{CommandsSource, EachMillisecond};
use std::alloc::{Allocator, Global};
use std::cell::Cell;
use std::fs::{self, Files};
use std::io;

// The path of the commands file.
const PATH: &str = "commands";

// A second, and a thousandth of it, rounded up, in units of 2^-32 seconds.
const SECOND: u64 = 1 << 32;

const MILLISECOND: u64 = 4_294_968;

// The receipt of a datagram that came then.
fn receipt(at: u64) -> Option<Moment> {
    Some(Moment {
        era: 0,
        stamp: Stamp(at),
    })
}

// A source that gives two octets whenever it is asked: how often it was asked before, and whether a datagram waits.
#[derive(Drop)]
struct Asked(u8);

impl<A: Allocator> CommandsSource<A> for Asked {
    fn look(&mut self, alloc: A, receipt: Option<Moment>) -> Option<Vec<u8, A>> {
        let before = self.0;
        self.0 = before.wrapping_add(1);
        [before, u8::from(receipt.is_some())].to_vec(alloc).ok()
    }
}

/// Prints what a source gives that is asked once in a thousandth of a second.
pub fn show_paced(rt: &HostRuntime) -> io::Result<()> {
    let mut source = EachMillisecond::new(Asked(0));
    let looks = [
        receipt(SECOND),
        receipt(SECOND),
        receipt(SECOND + MILLISECOND / 2),
        receipt(SECOND + MILLISECOND),
        receipt(SECOND + MILLISECOND * 3 / 2),
        // With no datagram, which alters nothing of the time.
        None,
        None,
        receipt(SECOND + MILLISECOND * 5 / 3),
        receipt(SECOND + MILLISECOND * 2),
        // The clock was set back.
        receipt(SECOND + MILLISECOND),
        receipt(SECOND + MILLISECOND * 3 / 2),
    ];
    for look in looks {
        match source.look(rt.alloc(), look).as_deref() {
            Some([before, has_come]) => println!(rt; "asked {before}, {has_come}")?,
            _ => println!(rt; "not asked")?,
        }
    }
    println!(rt; "asked {} times", source.source.0)
}

/// Prints by how many calls looks at a commands file find nothing, or how many octets they give.
pub fn show_calls(rt: &HostRuntime) -> io::Result<()> {
    let calls = Cell::new(0);
    let files = Counting::new(rt, &calls);
    fs::write(rt, PATH, "one\n")?;
    let clocks = HostClocks::new();
    let mut file = CommandsFile::over(HostFile::open(&files, PATH)?, &clocks)?;
    show_looks(rt, &mut file, &calls, "a file", &[None])?;
    // Its metadata alone: it was not read to its end before.
    show_looks(rt, &mut file, &calls, "unchanged", &[receipt(SECOND)])?;
    // The metadata of what stands at its path.
    let soon = [receipt(SECOND + MILLISECOND / 2); 10];
    show_looks(rt, &mut file, &calls, "ten looks", &soon)?;
    show_looks(rt, &mut file, &calls, "no datagram", &[None])?;
    fs::write(rt, PATH, "one\ntwo")?;
    let soon = [receipt(SECOND + MILLISECOND)];
    show_looks(rt, &mut file, &calls, "an unfinished line", &soon)?;
    fs::write(rt, PATH, "one\ntwo\n")?;
    show_looks(rt, &mut file, &calls, "a line more", &soon)?;
    fs::write(rt, PATH, "one\n")?;
    show_looks(rt, &mut file, &calls, "shorter", &soon)?;
    // It is given up.
    let later = [receipt(SECOND + 2 * SECOND); 10];
    show_looks(rt, &mut file, &calls, "ten looks", &later)
}

// How many octets looks with these receipts give first, if they give any.
fn first_given<R: Files>(
    alloc: Global,
    file: &mut CommandsFile<'_, HostFile<'_, R>>,
    receipts: &[Option<Moment>],
) -> Option<usize> {
    for receipt in receipts {
        if let Some(octets) = file.look(alloc, *receipt) {
            return Some(octets.len());
        }
    }
    None
}

// Prints what looks with these receipts give first, or how many calls they took.
fn show_looks<R: Files>(
    rt: &HostRuntime,
    file: &mut CommandsFile<'_, HostFile<'_, R>>,
    calls: &Cell<u64>,
    what: &str,
    receipts: &[Option<Moment>],
) -> io::Result<()> {
    calls.set(0);
    match first_given(rt.alloc(), file, receipts) {
        Some(octets) => println!(rt; "{what}: {octets} octets"),
        None => println!(rt; "{what}: nothing, calls {}", calls.get()),
    }
}
