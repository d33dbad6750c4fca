//! A replay whose reader or writer fails at each place in turn: the lines before the fault are answered, and the fault is
//! told at its line.

use crate::servers::fail_after::FailAfter;
use crate::servers::first_answers::{are_first_answers, ended_lines};
use labntp_jobs::{ReplayFault, ReplayFaultKind, Watched, replay};
use std::alloc::{AllocError, Global};
use std::test::Fail;
use test_support::{ANSWERS, SCRIPT};

// What a replay of a text writes where the reader fails behind `read` octets and the writer behind `written`, and how it ends.
fn replayed(
    alloc: Global,
    text: &[u8],
    read: usize,
    written: usize,
) -> (Vec<u8>, Result<(), ReplayFault>) {
    let mut reader = Watched::new(FailAfter::new(text, read));
    let mut writer = Watched::new(FailAfter::new(Vec::new(alloc), written));
    let end = replay(alloc, &mut reader, &mut writer);
    (writer.into_inner().into_inner(), end)
}

fn stopped(line: u64, kind: ReplayFaultKind) -> Result<(), ReplayFault> {
    Err(ReplayFault { line, kind })
}

#[test]
fn a_read_fails_at_each_place(rt: HostRuntime) {
    let script = SCRIPT.as_bytes();
    for place in 0..=script.len() {
        let (written, end) = replayed(rt.alloc(), script, place, usize::MAX);
        let lines = ended_lines(&script[..place]);
        assert!(rt;
            end == stopped(lines + 1, ReplayFaultKind::Read),
            "at {place}"
        );
        are_first_answers(&rt, &written, lines);
    }
}

#[test]
fn a_write_fails_at_each_place(rt: HostRuntime) {
    let answers = ANSWERS.as_bytes();
    for place in 0..answers.len() {
        let (written, end) = replayed(rt.alloc(), SCRIPT.as_bytes(), usize::MAX, place);
        let lines = ended_lines(&answers[..place]);
        let is_stopped = end == stopped(lines + 1, ReplayFaultKind::Write);
        assert!(rt;
            is_stopped && written.as_slice() == &answers[..place],
            "at {place}"
        );
    }
}

#[test]
fn what_passes_all_changes_nothing(rt: HostRuntime) {
    let script = SCRIPT.as_bytes();
    let (written, end) = replayed(rt.alloc(), script, script.len() + 1, ANSWERS.len());
    assert!(rt; end.is_ok() && written.as_slice() == ANSWERS.as_bytes());
}

const ENROLMENT: &[u8] = b"enrol 192.0.2.10 7 md5 6b6579 10\n";

// A query without a MAC.
const QUERY: &[u8] = b"datagram 192.0.2.10 0:ec00001090000000 0:ec00001090000100 \
    0001ec00000000000000104e495354ec00000000000000 \
    23000600000000000000000000000000000000000000000000000000000000000000000000000000ec00001080000000\n";

// One octet more than a line may have.
const LONG: [u8; 4097] = [b'#'; 4097];

// A script of the enrolment and another line.
fn script(alloc: Global, line: &[u8]) -> Result<Vec<u8>, AllocError> {
    let mut text = ENROLMENT.to_vec(alloc)?;
    text.extend_from_slice(line)?;
    Ok(text)
}

// Second lines, behind how many octets the reader and the writer fail, and the fault.
const SECOND_LINES: [(&[u8], usize, usize, ReplayFaultKind); 4] = [
    (QUERY, usize::MAX, 5, ReplayFaultKind::Write),
    (QUERY, ENROLMENT.len(), usize::MAX, ReplayFaultKind::Read),
    (&LONG, usize::MAX, usize::MAX, ReplayFaultKind::LineLong),
    (b"\xff\n", usize::MAX, usize::MAX, ReplayFaultKind::NotUtf8),
];

#[test]
fn the_second_line_meets_each_fault(rt: HostRuntime) -> Result<(), Fail> {
    for (line, read, written, kind) in SECOND_LINES {
        let text = script(rt.alloc(), line)?;
        let (answers, end) = replayed(rt.alloc(), &text, read, written);
        assert!(rt; end == stopped(2, kind));
        assert!(rt; answers.as_slice() == b"done\n".as_slice());
    }
    Ok(())
}
