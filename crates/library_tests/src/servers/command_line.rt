//! The lines that tell faults, which no clause says; that each job is found at all; and replays that are refused memory.

use labntp_jobs::{Job, Watched, job, replay_status};
use ntp_admin::{LoadFault, RegisterFault, Status, load_status, unread_status, usage_status};
use ntp_service::{LineFault, Refusal};
use std::alloc::{Allocator, Global};
use std::io::{self, ErrorKind, Read, Write};
use std::process::Abort;
use std::test::Fail;
use test_support::{Broken, Refusing};

// The status that a replay ends with.
fn status<A: Allocator + Copy, R: Read + Drop, W: Write + Drop, F: Write>(
    alloc: A,
    reader: R,
    writer: W,
    faults: &mut F,
) -> u8 {
    let mut reader = Watched::new(reader);
    replay_status(alloc, &mut reader, &mut Watched::new(writer), faults)
}

// The line that tells why a replay ended; what it ends with and what it writes is its contract.
fn told(alloc: Global, script: &[u8]) -> Vec<u8> {
    let mut faults = Vec::new(alloc);
    let _ = status(alloc, script, Vec::new(alloc), &mut faults);
    faults
}

// One octet more than a line may have.
const LONG: [u8; 4097] = [b'#'; 4097];

// Scripts, each with the line that tells its fault.
const FAULTY_SCRIPTS: [(&[u8], &[u8]); 4] = [
    (b"revoke 192.0.2.10\n", b""),
    (b"\nenroll 192.0.2.10\n", b"line 2: word\n"),
    (b"#\n\xff\n", b"line 2: not utf-8\n"),
    (&LONG, b"line 1: long\n"),
];

#[test]
fn each_fault_of_a_script_has_its_line(rt: HostRuntime) {
    for (script, line) in FAULTY_SCRIPTS {
        assert!(rt; told(rt.alloc(), script).as_slice() == line);
    }
}

#[test]
fn a_failed_read_or_write_is_told_where_it_can_be(rt: HostRuntime) {
    let alloc = rt.alloc();
    let script = b"enrol 192.0.2.10 7 md5 6b6579 10\n".as_slice();
    let mut faults = Vec::new(alloc);
    assert!(rt; status(alloc, Broken, Vec::new(alloc), &mut faults) == Status::IoFailed.code());
    assert!(rt; status(alloc, script, Broken, &mut faults) == Status::IoFailed.code());
    assert!(rt; faults.as_slice() == b"read\nwrite\n".as_slice());
    assert!(rt; status(alloc, script, Broken, &mut Broken) == Status::IoFailed.code());
}

// What a command line comes to that gives no job, and then one that could not be read, for want of memory or since it is no text.
fn statuses_without_a_job<F: Write>(faults: &mut F) -> [Status; 3] {
    [
        usage_status(faults),
        unread_status(&io::Error::from(ErrorKind::OutOfMemory), faults),
        unread_status(&io::Error::from(ErrorKind::InvalidData), faults),
    ]
}

#[test]
fn a_command_line_that_gives_no_job_is_told(rt: HostRuntime) {
    let statuses = [
        Status::UsageRefused,
        Status::MemoryOut,
        Status::UsageRefused,
    ];
    let mut faults = Vec::new(rt.alloc());
    assert!(rt; statuses_without_a_job(&mut faults) == statuses);
    assert!(rt; faults.as_slice() == b"usage\nmemory\nusage\n".as_slice());
    assert!(rt; statuses_without_a_job(&mut Broken) == statuses);
}

// A script in two parts: an enrolment, and behind a comment the end of that enrolment.
const ENROLMENT: &str = "enrol 192.0.2.10 7 md5 6b6579 10\n";

const REVOCATION: &str = "# not for long\nrevoke 192.0.2.10\n";

const ANSWERS: &str = "done\ndone\n";

// The answers where the enrolment is refused memory: nobody is left to be revoked.
const UNENROLLED_ANSWERS: &str = "refused no-memory\nrefused not-enrolled\n";

// More allocations than a replay of that script asks for.
const MOST: u64 = 200;

// What was refused memory.
#[derive(Clone, Copy, Debug, PartialEq, Eq)]
enum Refused {
    Nothing,
    Replay,
    Enrolment,
}

// The status that a replay of the script ends with where its memory comes from there, what it has written, and its faults.
fn ended(memory: &Refusing<Global>, alloc: Global) -> (u8, Vec<u8>, Vec<u8>) {
    // No read gives both parts, so that more than what was read is left where a replay stops.
    let reader = ENROLMENT.as_bytes().chain(REVOCATION.as_bytes());
    let mut written = Vec::new(alloc);
    let mut faults = Vec::new(alloc);
    let status = status(memory, reader, &mut written, &mut faults);
    (status, written, faults)
}

// Replays the script with its nth allocation refused. A replay that stops tells of memory, once, behind the answers to
// the lines before; one that goes on tells no fault, and has been refused the enrolment alone.
fn refused_in(rt: &impl Abort, alloc: Global, n: u64) -> Refused {
    let memory = Refusing::new(alloc);
    memory.refuse_nth(n);
    let (status, written, faults) = ended(&memory, alloc);
    if status == Status::MemoryOut.code() {
        assert!(rt; memory.refused() > 0, "{n}");
        assert!(rt; faults.as_slice() == b"memory\n".as_slice(), "{n}");
        assert!(rt; ANSWERS.as_bytes().starts_with(&written), "{n}");
        assert!(rt; written.is_empty() || written.ends_with(b"\n"), "{n}");
        return Refused::Replay;
    }
    assert!(rt; status == Status::Done.code(), "{n}: {status}");
    assert!(rt; faults.is_empty(), "{n}");
    let (answers, refused) = if memory.refused() > 0 {
        (UNENROLLED_ANSWERS, Refused::Enrolment)
    } else {
        (ANSWERS, Refused::Nothing)
    };
    assert!(rt; written.as_slice() == answers.as_bytes(), "{n}");
    refused
}

#[test]
fn a_refused_allocation_ends_a_replay_or_is_its_answer(rt: HostRuntime) {
    let mut ended = false;
    let mut replay_refused = false;
    let mut enrolment_refused = false;
    for n in 1..=MOST {
        match refused_in(&rt, rt.alloc(), n) {
            Refused::Nothing => {
                ended = true;
                break;
            }
            Refused::Replay => replay_refused = true,
            Refused::Enrolment => enrolment_refused = true,
        }
    }
    assert!(rt; ended, "the allocations never came to their end");
    assert!(rt; replay_refused);
    assert!(rt; enrolment_refused);
}

// Words, one at a blank.
fn words(alloc: Global, line: &str) -> Result<Vec<String>, Fail> {
    let mut words = Vec::new(alloc);
    for word in line.split(' ') {
        words.push(String::from_str(alloc, word)?)?;
    }
    Ok(words)
}

// Whether words ask to serve with these files, at this port and for `turns` turns.
fn asks_to_serve(words: &[String], register: &str, commands: &str, port: u16, turns: u32) -> bool {
    match job(words) {
        Some(Job::Serve(serving)) => {
            serving.register == register
                && serving.commands == commands
                && serving.port.get() == port
                && serving.turns == turns
        }
        _ => false,
    }
}

// What words ask for is the contract of `job`; here it is seen once that each job is found at all.
#[test]
fn each_job_has_its_words(rt: HostRuntime) -> Result<(), Fail> {
    let replay = words(rt.alloc(), "replay")?;
    assert!(rt; job(&replay) == Some(Job::Replay));
    let loopback = words(rt.alloc(), "loopback --turns 1000")?;
    assert!(rt; job(&loopback) == Some(Job::Loopback { turns: 1000 }));
    let line = "serve --register r --commands c --port 12300 --turns 7";
    let serve = words(rt.alloc(), line)?;
    assert!(rt; asks_to_serve(&serve, "r", "c", 12_300, 7));
    Ok(())
}

// The second customer of a file has a fault, or is refused.
const CUSTOMER_FAULTY: LoadFault = LoadFault::Register(RegisterFault::Entry {
    place: 1,
    fault: LineFault::Number,
});

const CUSTOMER_WITHOUT_MEMORY: LoadFault = LoadFault::Register(RegisterFault::Entry {
    place: 1,
    fault: LineFault::NoMemory,
});

const CUSTOMER_REFUSED: LoadFault = LoadFault::Refused {
    place: 1,
    refusal: Refusal::KeyTaken,
};

const CUSTOMER_REFUSED_MEMORY: LoadFault = LoadFault::Refused {
    place: 1,
    refusal: Refusal::NoMemory,
};

const REGISTER_FAULTS: [LoadFault; 9] = [
    LoadFault::Read,
    LoadFault::Register(RegisterFault::Toml),
    LoadFault::Register(RegisterFault::Shape),
    LoadFault::Register(RegisterFault::Reference),
    LoadFault::Register(RegisterFault::NoMemory),
    CUSTOMER_FAULTY,
    CUSTOMER_WITHOUT_MEMORY,
    CUSTOMER_REFUSED,
    CUSTOMER_REFUSED_MEMORY,
];

#[test]
fn each_fault_of_a_register_file_has_its_line(rt: HostRuntime) {
    let mut faults = Vec::new(rt.alloc());
    for fault in REGISTER_FAULTS {
        // The status is the contract's.
        let status = load_status(fault, &mut faults);
        assert!(rt; load_status(fault, &mut Broken) == status);
    }
    let lines =
        "register: read\nregister: toml\nregister: shape\nregister: reference\nmemory\nregister: customer 1: number\n\
        memory\nregister: customer 1: key-taken\nregister: customer 1: no-memory\n";
    assert!(rt; faults.as_slice() == lines.as_bytes());
}
