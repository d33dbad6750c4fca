//! The replay of a script, what stops one, and what it ends with.
ghost use Rattle.std.specs.Prelude.{◌≡◌, ◌⊎◌, ℕ, ◌+◌, ◌-◌, ◌≤◌, ◌<◌, ◌^◌, List, [], true, false, OnOk, IfErr, IfSome};
ghost use Rattle.std.specs.Io.KnownBytes.{IsAtEnd};
ghost use Rattle.ntp_service.specs.Registry.{Registry};
ghost use Rattle.ntp_admin.specs.Starts.{status_code};
ghost use Rattle.labntp_jobs.specs.{Script.lines_of, Watched.Wrote, Ends.Ends, Ends.status_of};
ghost use Rattle.labntp_jobs.specs.Replay.{most_reads, Replays, StopsAt};

use crate::engine::Engine;
use crate::watch::Watched;
use ntp_admin::{Status, memory_status, write_status};
use ntp_service::LineFault;
use std::alloc::Allocator;
use std::io::{Read, Write};

/// Why a replay stopped. Of what is wrong with one line, `LineLong` is found first, then `NotUtf8`, and
/// then `Line`.
#[derive(Clone, Copy, Debug, PartialEq, Eq)]
pub enum ReplayFaultKind {
    /// The line spells no event.
    Line(LineFault),
    /// A failure of a read was noted, or 4,294,967,295 reads did not reach the end.
    Read,
    /// A failure of a write was noted.
    Write,
    /// A growth was refused, for the line or for its answer.
    NoMemory,
    /// The line has more than 4,096 octets.
    LineLong,
    /// The octets of the line are not UTF-8.
    NotUtf8,
}

/// Why a replay stopped, and at which line.
#[derive(Clone, Copy, Debug, PartialEq, Eq)]
pub struct ReplayFault {
    /// The line, counted from 1. Lines that are no event are counted too.
    pub line: u64,
    /// Why it was not answered.
    pub kind: ReplayFaultKind,
}

// How many octets are read at once, at most.
const CHUNK: usize = 4096;

// How many reads there are at most.
const MOST_READS: u32 = 4_294_967_295;

/// Applies a script to a service that begins with no customers. The answer to each line is written before the
/// next line is applied. The writer is never flushed: where it buffers, its owner does that. There are at most
/// 4,294,967,295 reads; how much memory is taken does not depend on how many lines there are.
///
/// A call of the reader or the writer that fails is not tried again, whatever the cause: an interrupted one has failed.
///
/// Where the reader and the writer tell their octets: at `Ok` the whole text was read, each line of it that is
/// an event spells an event, and what was written is the texts of the outcomes that the service tells to those
/// events. At an `Err` the lines before the one that the fault names were replayed so; after `Write` a part from
/// the front of that line's answer was written too, and after any other fault nothing more.
pub fn replay<A: Allocator + Copy, R: Read, W: Write>(
    alloc: A,
    reader: &mut Watched<R>,
    writer: &mut Watched<W>,
) -> Result<(), ReplayFault>
    requires reader_well { reader.old.failed ≡ false }
    requires unread { reader.old.reads ≡ 0 }
    requires writer_well { writer.old.failed ≡ false }

    // The whole text was read and replayed.
    ensures ok { OnOk result (IfSome (R.remaining reader.old.inner) (λ text. (written : List ℕ) × (service : Registry)
        × Replays A (lines_of text) written service × Wrote W.contents writer.old writer.new written)) }
    ensures end { OnOk result (IsAtEnd (R.remaining reader.new.inner)) }

    // Neither has noted a failure, whatever the reader and the writer tell.
    ensures reader_well { OnOk result (reader.new.failed ≡ false) }
    ensures writer_well { OnOk result (writer.new.failed ≡ false) }

    // The lines before the one that the fault names were replayed.
    ensures stopped { IfErr result (λ fault. IfSome (R.remaining reader.old.inner) (λ text. (written : List ℕ)
        × StopsAt A fault (lines_of text) written × Wrote W.contents writer.old writer.new written)) }

    // Whatever the reader and the writer tell.
    ensures read { IfErr result (λ fault. fault.kind ≡ ReplayFaultKind.Read
        → (reader.new.failed ≡ true) ⊎ (reader.new.reads ≡ most_reads)) }
    ensures write { IfErr result (λ fault. fault.kind ≡ ReplayFaultKind.Write → writer.new.failed ≡ true) }
    ensures bound { reader.new.reads ≤ most_reads }
{
    let mut engine = Engine::new(alloc);
    let mut chunk = [0; CHUNK];
    for _turn in 0..MOST_READS {
        match reader.read_chunk(&mut chunk) {
            Err(_) => return Err(engine.fault(ReplayFaultKind::Read)),
            Ok(0) => match engine.finish(writer) {
                Ok(()) => return Ok(()),
                Err(kind) => return Err(engine.fault(kind)),
            },
            Ok(n) => match engine.feed(&chunk[..n], writer) {
                Ok(()) => {}
                Err(kind) => return Err(engine.fault(kind)),
            },
        }
    }
    Err(engine.fault(ReplayFaultKind::Read))
}

/// Replays a script from a reader to a writer. A fault is told in one line to `faults`, where a failed write
/// is passed over.
///
/// Gives the exit status: 0 only where the whole script was replayed, 1 only where its text has a fault, 3 only
/// where a read or a write failed or the reads ran out, and 4 for want of memory.
pub fn replay_status<A: Allocator + Copy, R: Read, W: Write, F: Write>(
    alloc: A,
    reader: &mut Watched<R>,
    writer: &mut Watched<W>,
    faults: &mut F,
) -> u8
    requires reader_well { reader.old.failed ≡ false }
    requires unread { reader.old.reads ≡ 0 }
    requires writer_well { writer.old.failed ≡ false }

    // What the status says of the script, and what was written.
    ensures ends { IfSome (R.remaining reader.old.inner) (λ text. (written : List ℕ)
        × Ends A text written result × Wrote W.contents writer.old writer.new written) }

    // Whatever the reader and the writer tell.
    ensures done { result ≡ 0 → (reader.new.failed ≡ false) × (writer.new.failed ≡ false) }
    ensures failed { result ≡ 3 → (reader.new.failed ≡ true) ⊎ (reader.new.reads ≡ most_reads) ⊎ (writer.new.failed ≡ true) }
{
    match replay(alloc, reader, writer) {
        Ok(()) => Status::Done.code(),
        Err(fault) => tell(fault, faults).code(),
    }
}

// Tells a fault, and gives its status.
fn tell<F: Write>(fault: ReplayFault, faults: &mut F) -> Status
    ensures { status_code result ≡ status_of fault.kind }
{
    let word = match fault.kind {
        ReplayFaultKind::Line(LineFault::NoMemory) | ReplayFaultKind::NoMemory => {
            return memory_status(faults);
        }
        ReplayFaultKind::Write => return write_status(faults),
        ReplayFaultKind::Read => {
            let _ = writeln!(faults, "read");
            return Status::IoFailed;
        }
        ReplayFaultKind::Line(line_fault) => line_fault.word(),
        ReplayFaultKind::LineLong => "long",
        ReplayFaultKind::NotUtf8 => "not utf-8",
    };
    let line = fault.line;
    let _ = writeln!(faults, "line {line}: {word}");
    Status::TextFaulty
}
