//! What no contract says: that good lines are answered, that only what is wrong is a fault, and how often a reader or a writer
//! is called.
use crate::servers::faulty::Faulty;
use labntp_jobs::{ReplayFault, ReplayFaultKind, Watched, replay};
use ntp_service::LineFault;
use std::alloc::Global;
use std::io::{ErrorKind, Read, Write};
use std::process::Abort;
use std::test::Fail;

// How a replay ends; and its reader and its writer, as they were watched.
fn replayed<R: Read, W: Write>(
    alloc: Global,
    reader: R,
    writer: W,
) -> (Result<(), ReplayFault>, Watched<R>, Watched<W>) {
    let mut reader = Watched::new(reader);
    let mut writer = Watched::new(writer);
    let end = replay(alloc, &mut reader, &mut writer);
    (end, reader, writer)
}

// A replay of a text writes these answers, and ends so.
fn answers(
    rt: &impl Abort,
    alloc: Global,
    text: &[u8],
    answers: &[u8],
    end: Result<(), ReplayFault>,
) {
    let (ended, _, writer) = replayed(alloc, text, Vec::new(alloc));
    assert_eq!(rt; ended, end);
    assert!(rt; writer.into_inner().as_slice() == answers);
}

fn stopped(line: u64, kind: ReplayFaultKind) -> Result<(), ReplayFault> {
    Err(ReplayFault { line, kind })
}

#[test]
fn lines_are_answered_up_to_the_first_fault(rt: HostRuntime) {
    for (text, written, end) in [
        (b"".as_slice(), b"".as_slice(), Ok(())),
        (b"\n# x\n#", b"", Ok(())),
        (b"revoke 192.0.2.10", b"refused not-enrolled\n", Ok(())),
        (
            b"enrol 192.0.2.10 7 md5 6b6579 10\nrevoke 192.0.2.300\n",
            b"done\n",
            stopped(2, ReplayFaultKind::Line(LineFault::Address)),
        ),
        (
            b"\n# x\n\r\nrevoke 192.0.2.10\n",
            b"",
            stopped(3, ReplayFaultKind::Line(LineFault::Word)),
        ),
        (
            b"enrol 192.0.2.10 7 md5 6b6579 10\n\xff\n",
            b"done\n",
            stopped(2, ReplayFaultKind::NotUtf8),
        ),
        (b"#\xff", b"", stopped(1, ReplayFaultKind::NotUtf8)),
    ] {
        answers(&rt, rt.alloc(), text, written, end);
    }
}

#[test]
fn a_line_has_4096_octets_at_most(rt: HostRuntime) -> Result<(), Fail> {
    let long = stopped(2, ReplayFaultKind::LineLong);
    for (octets, line_feed, end) in [
        (4096, b"".as_slice(), Ok(())),
        (4096, b"\n", Ok(())),
        (4097, b"", long),
        (4097, b"\n", long),
    ] {
        let mut text = b"revoke 192.0.2.10\n".to_vec(rt.alloc())?;
        text.resize(text.len() + octets, b'#')?;
        text.extend_from_slice(line_feed)?;
        answers(&rt, rt.alloc(), &text, b"refused not-enrolled\n", end);
    }
    Ok(())
}

// How a call is to fail. An interrupted one is not tried again.
const KINDS: [ErrorKind; 2] = [ErrorKind::Other, ErrorKind::Interrupted];

// A replay whose nth read fails stops at a line, behind these answers.
fn stops_at_a_read(
    rt: &impl Abort,
    alloc: Global,
    kind: ErrorKind,
    n: u64,
    line: u64,
    answers: &[u8],
) {
    let text = Faulty::new(b"revoke 192.0.2.10\n".as_slice(), n, Some(kind));
    let (end, reader, writer) = replayed(alloc, text, Vec::new(alloc));
    assert!(rt; end == stopped(line, ReplayFaultKind::Read));
    assert!(rt; reader.failed() && !writer.failed());
    assert!(rt; reader.reads() == n && reader.into_inner().into_parts().0 == n);
    assert!(rt; writer.into_inner().as_slice() == answers);
}

#[test]
fn a_failed_read_is_told(rt: HostRuntime) {
    for kind in KINDS {
        stops_at_a_read(&rt, rt.alloc(), kind, 1, 1, b"");
        stops_at_a_read(&rt, rt.alloc(), kind, 19, 2, b"refused not-enrolled\n");
    }
}

// A replay whose nth write fails stops at a line, behind these octets.
fn stops_at_a_write(
    rt: &impl Abort,
    alloc: Global,
    kind: Option<ErrorKind>,
    n: u64,
    line: u64,
    answers: &[u8],
) {
    let text = b"enrol 192.0.2.10 7 md5 6b6579 10\nrevoke 192.0.2.10\nrevoke 192.0.2.10\n";
    let faulty = Faulty::new(Vec::new(alloc), n, kind);
    let (end, reader, writer) = replayed(alloc, text.as_slice(), faulty);
    assert!(rt; end == stopped(line, ReplayFaultKind::Write));
    assert!(rt; writer.failed() && !reader.failed());
    let (calls, taken) = writer.into_inner().into_parts();
    assert!(rt; calls == n && taken.as_slice() == answers);
}

#[test]
fn a_failed_write_is_told(rt: HostRuntime) {
    for kind in [None, Some(KINDS[0]), Some(KINDS[1])] {
        stops_at_a_write(&rt, rt.alloc(), kind, 1, 1, b"");
        stops_at_a_write(&rt, rt.alloc(), kind, 2, 1, b"d");
        stops_at_a_write(&rt, rt.alloc(), kind, 6, 2, b"done\n");
    }
}

// A replay of a text reads octet by octet up to the end of the text, and writes these answers octet by octet.
fn calls_are_counted(rt: &impl Abort, alloc: Global, text: &[u8], answers: &[u8]) {
    let sound = Faulty::sound(Vec::new(alloc));
    let (end, reader, writer) = replayed(alloc, Faulty::sound(text), sound);
    assert!(rt; end.is_ok() && !reader.failed() && !writer.failed());
    let reads = reader.reads();
    let (calls, left) = reader.into_inner().into_parts();
    // The last is at the end of the text.
    let expected = (text.len() as u64).saturating_add(1);
    assert!(rt; left.is_empty() && reads == expected && calls == expected);
    let (calls, taken) = writer.into_inner().into_parts();
    assert!(rt; calls == answers.len() as u64 && taken.as_slice() == answers);
}

#[test]
fn each_read_and_each_write_is_one_call(rt: HostRuntime) {
    calls_are_counted(&rt, rt.alloc(), b"", b"");
    calls_are_counted(&rt, rt.alloc(), b"#\n", b"");
    calls_are_counted(
        &rt,
        rt.alloc(),
        b"revoke 192.0.2.10",
        b"refused not-enrolled\n",
    );
}
