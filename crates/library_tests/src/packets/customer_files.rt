//! What is told of faulty lines, and each call once with its answer. What is applied is told by the answers to further
//! commands.

use crate::packets::register_text::EXAMPLE;
use ntp_admin::{
    FaultLines, LoadFault, Loaded, MOST_FILE_OCTETS, MOST_LINE_OCTETS, RegisterFault, apply_lines,
    commands_step, load_register, parse_command,
};
use ntp_reply::Reference;
use ntp_service::{Command, LineFault, LineOutcome, Observer, Refusal, Service, TurnOutcome};
use std::alloc::{AllocError, Allocator, Global};
use std::io::{self, ErrorKind, Write};
use std::process::Abort;
use std::test::Fail;
use test_support::{Broken, Refusing, reference};

const A: &str = "enrol 192.0.2.10 7 md5 6b6579 10";

const B: &str = "enrol 192.0.2.20 8 sha1 6f74686572 10";

// A, a comment, an empty line, a faulty line, and B without its line feed.
const UNFINISHED: &[u8] = b"enrol 192.0.2.10 7 md5 6b6579 10
# x

revoke 192.0.2.300
enrol 192.0.2.20 8 sha1 6f74686572 10";

// The same with it.
const FINISHED: &[u8] = b"enrol 192.0.2.10 7 md5 6b6579 10
# x

revoke 192.0.2.300
enrol 192.0.2.20 8 sha1 6f74686572 10
";

// What a service answers to a command, where the line spells one. (A test leaves a service behind nowhere but at its end: each
// other place would have to be proved.)
fn ordered<M: Allocator + Copy>(
    service: &mut Service<M>,
    line: &str,
) -> Option<Result<(), Refusal>> {
    let command = parse_command(line).ok()?;
    Some(service.command(&command))
}

// Applies the due lines of a commands file, with `applied` lines applied before. Gives how many are applied then.
fn step<M: Allocator + Copy, F: Write>(
    service: &mut Service<M>,
    octets: &[u8],
    applied: u64,
    faults: &mut F,
) -> u64 {
    commands_step(service, octets, applied, faults)
}

// Carries out the complete lines of a piece of commands, with `before` lines in front of it. Returns how many are applied then.
fn take_piece<O: Observer>(
    service: &mut Service,
    piece: &[u8],
    before: u64,
    observer: &mut O,
) -> u64 {
    apply_lines(service, piece, before, observer)
}

// Just these lines were told of faults.
fn assert_told(rt: &impl Abort, faults: &Vec<u8>, lines: &[u8]) {
    assert_eq!(rt; faults.as_slice(), lines);
}

// Whether a command would enrol an address that is enrolled.
fn is_enrolled<M: Allocator + Copy>(service: &mut Service<M>, line: &str) -> bool {
    ordered(service, line) == Some(Err(Refusal::AlreadyEnrolled))
}

// The lines that are due are applied, and what is told of them.
fn apply_due(rt: &impl Abort, service: &mut Service, faults: &mut Vec<u8>) {
    assert!(rt; step(service, UNFINISHED, 0, faults) == 4);
    assert_told(rt, faults, b"commands: line 4: address\n");
    faults.clear();
    assert!(rt; step(service, FINISHED, 4, faults) == 5);
    assert_told(rt, faults, b"");
    assert!(rt; is_enrolled(service, A) && is_enrolled(service, B));
}

#[test]
fn due_lines_are_applied_once(rt: HostRuntime) {
    let mut service = Service::new(rt.alloc());
    let mut faults = Vec::new(rt.alloc());
    apply_due(&rt, &mut service, &mut faults);
}

// Octets of a text, with line feeds behind them up to this length.
fn padded(alloc: Global, text: &[u8], length: usize) -> Result<Vec<u8>, Fail> {
    let mut octets = text.to_vec(alloc)?;
    octets.resize(length, b'\n')?;
    Ok(octets)
}

// A file with five applied lines gives nothing more: nothing is told, and A can still be enrolled.
fn gives_nothing(rt: &impl Abort, alloc: Global, octets: &[u8]) {
    let mut service = Service::new(alloc);
    let mut faults = Vec::new(alloc);
    assert!(rt; step(&mut service, octets, 5, &mut faults) == 5);
    assert!(rt; faults.is_empty());
    assert!(rt; ordered(&mut service, A) == Some(Ok(())));
}

#[test]
fn a_file_that_gives_nothing_leaves_all_as_it_was(rt: HostRuntime) -> Result<(), Fail> {
    let alloc = rt.alloc();
    gives_nothing(
        &rt,
        alloc,
        b"enrol 192.0.2.10 7 md5 6b6579 10\nrevoke 192.0.2.300\n",
    );
    gives_nothing(
        &rt,
        alloc,
        b"1\n2\n3\n4\n5\nenrol 192.0.2.10 7 md5 6b6579 10\n\xff",
    );
    let long = padded(alloc, FINISHED, MOST_FILE_OCTETS + 1)?;
    gives_nothing(&rt, alloc, &long);
    Ok(())
}

// Commands files, each with what is told of it.
const REFUSED_FILES: [(&[u8], &[u8]); 4] = [
    (b"revoke 192.0.2.10\n", b"commands: line 1: not-enrolled\n"),
    (
        b"enrol 192.0.2.10 7 md5 6b6579 10\nenrol 192.0.2.10 8 md5 6b6579 10\n",
        b"commands: line 2: already-enrolled\n",
    ),
    (
        b"\nenrol 192.0.2.10 7 md5 6b6579 10\n#\nenrol 192.0.2.20 7 md5 6b6579 10\nbudget\n",
        b"commands: line 4: key-taken\ncommands: line 5: count\n",
    ),
    (
        b"enrol 192.0.2.10 7 md5 6b6579 10\nretire 192.0.2.10 7\nretire 192.0.2.10 9\n\
        rollover 192.0.2.10 7 md5 6e\nrollover 192.0.2.10 9 sha1 6e6577\nrollover 192.0.2.10 11 md5 6e\n\
        retire 192.0.2.10 7\nretire 192.0.2.10 7\nrollover 192.0.2.20 7 md5 6e\n",
        b"commands: line 2: only-key\ncommands: line 3: not-held\ncommands: line 4: same-number\n\
        commands: line 6: room-full\ncommands: line 8: not-held\ncommands: line 9: not-enrolled\n",
    ),
];

#[test]
fn refusals_are_told(rt: HostRuntime) {
    for (octets, told) in REFUSED_FILES {
        let mut faults = Vec::new(rt.alloc());
        step(&mut Service::new(rt.alloc()), octets, 0, &mut faults);
        assert_told(&rt, &faults, told);
    }
}

// An enrolment of a commands file is refused memory, and then stands there once more while there is some.
fn enrol_without_memory(
    rt: &impl Abort,
    memory: &Refusing<Global>,
    service: &mut Service<&Refusing<Global>>,
    faults: &mut Vec<u8>,
) {
    let octets = b"enrol 192.0.2.10 7 md5 6b6579 10\n";
    memory.refuse_all();
    assert!(rt; step(service, octets, 0, faults) == 1);
    assert_told(rt, faults, b"commands: line 1: no-memory\n");
    memory.refuse_none();
    assert!(rt; step(service, octets, 1, faults) == 1);
    assert_told(rt, faults, b"commands: line 1: no-memory\n");
    assert!(rt; ordered(service, A) == Some(Ok(())));
}

#[test]
fn an_enrolment_without_memory_is_told_and_not_tried_again(rt: HostRuntime) {
    let memory = Refusing::new(rt.alloc());
    let mut service = Service::new(&memory);
    let mut faults = Vec::new(rt.alloc());
    enrol_without_memory(&rt, &memory, &mut service, &mut faults);
}

#[test]
fn lines_are_applied_though_nobody_is_told(rt: HostRuntime) {
    let mut service = Service::new(rt.alloc());
    assert!(rt; step(&mut service, FINISHED, 0, &mut Broken) == 5);
    assert!(rt; is_enrolled(&mut service, B));
}

// A writer that fails at first, and then takes what comes.
#[derive(Drop)]
struct Waking<M: Allocator> {
    is_awake: bool,
    taken: Vec<u8, M>,
}

impl<M: Allocator> Write for Waking<M> {
    fn write(&mut self, buf: &[u8]) -> io::Result<usize> {
        if !self.is_awake {
            self.is_awake = true;
            return Err(io::Error::from(ErrorKind::BrokenPipe));
        }
        self.taken.extend_from_slice(buf)?;
        Ok(buf.len())
    }

    fn flush(&mut self) -> io::Result<()> {
        Ok(())
    }
}

// The first line that is told of is noted not to have been written, and neither is tried again.
fn miss_a_line(rt: &impl Abort, service: &mut Service, faults: &mut Waking<Global>) {
    let mut lines = FaultLines::new(faults);
    assert!(rt; !lines.has_failed());
    assert!(rt; take_piece(service, b"revoke 192.0.2.10\n", 0, &mut lines) == 1);
    assert!(rt; lines.has_failed());
    assert!(rt; take_piece(service, b"revoke 192.0.2.20 9\n", 1, &mut lines) == 2);
}

#[test]
fn a_line_that_could_not_be_written_is_noted_and_not_written_later(rt: HostRuntime) {
    let mut faults = Waking {
        is_awake: false,
        taken: Vec::new(rt.alloc()),
    };
    let mut service = Service::new(rt.alloc());
    miss_a_line(&rt, &mut service, &mut faults);
    assert_told(&rt, &faults.taken, b"commands: line 2: count\n");
}

// What an observer was told of lines, as far as it has memory.
#[derive(Drop)]
struct Heard<M: Allocator> {
    lines: Vec<(u64, LineOutcome), M>,
}

impl<M: Allocator> Observer for Heard<M> {
    fn line(&mut self, number: u64, _command: Option<&Command>, outcome: LineOutcome) {
        let _ = self.lines.push((number, outcome));
    }

    fn turn(&mut self, _outcome: &TurnOutcome) {}
}

// Pieces of a commands file, each with how many lines are applied once it was taken.
const PIECES: [(&[u8], u64); 4] = [
    (UNFINISHED, 4),
    (b"enrol 192.0.2.20 8 sha1 6f74686572 10\n", 5),
    (b"", 5),
    (b"enrol 192.0.2.20 9 md5 6b6579 10\n", 6),
];

// What an observer hears of their lines.
const OUTCOMES: [(u64, LineOutcome); 4] = [
    (1, LineOutcome::Done),
    (4, LineOutcome::Faulty(LineFault::Address)),
    (5, LineOutcome::Done),
    (6, LineOutcome::Refused(Refusal::AlreadyEnrolled)),
];

#[test]
fn each_line_is_told_with_its_number(rt: HostRuntime) {
    let mut service = Service::new(rt.alloc());
    let mut heard = Heard {
        lines: Vec::new(rt.alloc()),
    };
    let mut applied = 0;
    for (piece, lines) in PIECES {
        applied = take_piece(&mut service, piece, applied, &mut heard);
        assert!(rt; applied == lines);
    }
    assert!(rt; heard.lines.as_slice() == OUTCOMES.as_slice());
}

#[test]
fn a_number_of_a_line_stays_at_the_most(rt: HostRuntime) {
    let mut service = Service::new(rt.alloc());
    let mut heard = Heard {
        lines: Vec::new(rt.alloc()),
    };
    let before = u64::MAX - 1;
    assert!(rt; take_piece(&mut service, b"1\n2\n", before, &mut heard) == u64::MAX);
    let word = LineOutcome::Faulty(LineFault::Word);
    assert!(rt; heard.lines.as_slice() == [(u64::MAX, word), (u64::MAX, word)].as_slice());
}

// Adds a line of `length` octets: the first one, and then the other one alone.
fn add_line(lines: &mut Vec<u8>, first: u8, other: u8, length: usize) -> Result<(), AllocError> {
    lines.push(first)?;
    for _ in 1..length {
        lines.push(other)?;
    }
    lines.push(b'\n')?;
    Ok(())
}

// Lines of any length with any octets, and then a command.
fn odd_lines(alloc: Global) -> Result<Vec<u8>, AllocError> {
    let mut lines = Vec::new(alloc);
    add_line(&mut lines, b'#', 0xff, MOST_LINE_OCTETS + 1)?;
    add_line(&mut lines, b'x', b'x', MOST_LINE_OCTETS)?;
    add_line(&mut lines, b'x', b'x', MOST_LINE_OCTETS + 1)?;
    add_line(&mut lines, b'x', 0xff, MOST_LINE_OCTETS)?;
    add_line(&mut lines, b'x', 0xff, MOST_LINE_OCTETS + 1)?;
    lines.extend_from_slice(A.as_bytes())?;
    lines.push(b'\n')?;
    Ok(lines)
}

// What an observer hears of them.
const ODD_OUTCOMES: [(u64, LineOutcome); 5] = [
    (2, LineOutcome::Faulty(LineFault::Word)),
    (3, LineOutcome::Faulty(LineFault::LineLong)),
    (4, LineOutcome::Faulty(LineFault::NotUtf8)),
    (5, LineOutcome::Faulty(LineFault::LineLong)),
    (6, LineOutcome::Done),
];

#[test]
fn a_line_that_is_long_or_no_text_stops_no_other(rt: HostRuntime) -> Result<(), Fail> {
    let mut service = Service::new(rt.alloc());
    let mut heard = Heard {
        lines: Vec::new(rt.alloc()),
    };
    let lines = odd_lines(rt.alloc())?;
    assert!(rt; take_piece(&mut service, &lines, 0, &mut heard) == 6);
    assert!(rt; heard.lines.as_slice() == ODD_OUTCOMES.as_slice());
    Ok(())
}

// Each fault with its word.
const WORDS: [(LineFault, &str); 14] = [
    (LineFault::Word, "word"),
    (LineFault::Count, "count"),
    (LineFault::Address, "address"),
    (LineFault::Number, "number"),
    (LineFault::Algorithm, "algorithm"),
    (LineFault::KeyText, "key"),
    (LineFault::Budget, "budget"),
    (LineFault::NoMemory, "memory"),
    (LineFault::Moment, "moment"),
    (LineFault::Stamp, "stamp"),
    (LineFault::Reference, "reference"),
    (LineFault::Hex, "hex"),
    (LineFault::LineLong, "line-long"),
    (LineFault::NotUtf8, "not-utf8"),
];

#[test]
fn each_fault_has_its_word(rt: HostRuntime) {
    for (fault, word) in WORDS {
        assert!(rt; fault.word() == word, "{word}");
    }
}

// What a register file gives.
fn loaded(alloc: Global, octets: &[u8]) -> Option<Loaded> {
    load_register(alloc, octets).ok()
}

// The state that a register file gives, where its service knows the customers of A and B.
fn reference_of_loaded(alloc: Global, octets: &[u8]) -> Option<Reference> {
    let Loaded {
        reference,
        mut service,
    } = loaded(alloc, octets)?;
    if is_enrolled(&mut service, A) && is_enrolled(&mut service, B) {
        Some(reference)
    } else {
        None
    }
}

#[test]
fn a_register_file_is_loaded(rt: HostRuntime) -> Result<(), Fail> {
    let reference = reference()?;
    let loaded = reference_of_loaded(rt.alloc(), EXAMPLE.as_bytes());
    assert!(rt; loaded == Some(reference));
    Ok(())
}

// Why a register file is refused.
fn fault(alloc: Global, octets: &[u8]) -> Option<LoadFault> {
    load_register(alloc, octets).err()
}

// Whether the example is refused so where it has one text in place of another.
fn is_refused(alloc: Global, old: &str, new: &str, why: LoadFault) -> Result<bool, AllocError> {
    let text = EXAMPLE.replace(alloc, old, new)?;
    Ok(fault(alloc, text.as_bytes()) == Some(why))
}

// The second customer has a number that is taken, and one that is none.
const TAKEN: LoadFault = LoadFault::Refused {
    place: 1,
    refusal: Refusal::KeyTaken,
};

const NUMBER: LoadFault = LoadFault::Register(RegisterFault::Entry {
    place: 1,
    fault: LineFault::Number,
});

#[test]
fn register_files_are_refused(rt: HostRuntime) -> Result<(), Fail> {
    assert!(rt; is_refused(rt.alloc(), "number = 8", "number = 7", TAKEN)?);
    assert!(rt; is_refused(rt.alloc(), "number = 8", "number = 0", NUMBER)?);
    let text = b"reference = \"00\"\n[[customer]]\nnumber = 0\n";
    let reference = LoadFault::Register(RegisterFault::Reference);
    assert!(rt; fault(rt.alloc(), text) == Some(reference));
    Ok(())
}

#[test]
fn octets_that_are_no_text_are_not_read(rt: HostRuntime) -> Result<(), Fail> {
    let most = padded(rt.alloc(), EXAMPLE.as_bytes(), MOST_FILE_OCTETS)?;
    assert!(rt; fault(rt.alloc(), &most).is_none());
    let long = padded(rt.alloc(), EXAMPLE.as_bytes(), MOST_FILE_OCTETS + 1)?;
    assert!(rt; fault(rt.alloc(), &long) == Some(LoadFault::Read));
    assert!(rt; fault(rt.alloc(), b"\xff") == Some(LoadFault::Read));
    Ok(())
}
