//! A reader or a writer, and whether a failure was noted.
ghost use Rattle.std.specs.Prelude.{◌≡◌, ℕ, ◌+◌, ◌-◌, ◌<◌, ◌≤◌, ◌^◌, List, length, take, min, true, false, IfOk, IfErr, OnOk, OnErr};
ghost use Rattle.std.specs.Io.KnownBytes.{Keeps, Consumes, IsAtEnd};

use crate::ReplayFaultKind;
use std::io::{self, Read, Write};

/// A reader or a writer that is watched: whether a failure was noted, and how many reads were counted. A failure is
/// noted, and a read counted, where a call is made through it.
#[derive(Debug, Drop)]
pub struct Watched<T> {
    inner: T,
    // Whether a failure was noted.
    failed: bool,
    // How many reads were counted.
    reads: u64,
}

impl<T> Watched<T> {
    /// Watches a reader or a writer from here on.
    pub fn new(inner: T) -> Watched<T>
        ensures inner { result.inner ≡ inner }
        ensures failed { result.failed ≡ false }
        ensures reads { result.reads ≡ 0 }
    {
        Watched {
            inner,
            failed: false,
            reads: 0,
        }
    }

    /// Whether a failure was noted: of a read or a write, or of a write of one or more octets that took none.
    pub fn failed(&self) -> bool
        ensures { result ≡ self.now.failed }
    {
        self.failed
    }

    /// What was watched.
    pub fn into_inner(self) -> T
        ensures { result ≡ self.inner }
    {
        let Watched {
            inner,
            failed: _,
            reads: _,
        } = self;
        inner
    }

    /// How many reads were counted, at most 2^64 - 1.
    pub fn reads(&self) -> u64
        ensures { result ≡ self.now.reads }
    {
        self.reads
    }
}

impl<R: Read> Watched<R> {
    // One read, tried once. It gives no octet only at the end of the input. An error is noted as a failure.
    pub(crate) fn read_chunk(&mut self, chunk: &mut [u8]) -> io::Result<usize>
        requires { 0 < length chunk.old }
        ensures bound { IfOk result (λ n. n ≤ length chunk.new) }
        ensures octets { IfOk result (λ n.
            Consumes (R.remaining self.old.inner) (R.remaining self.new.inner) (take n chunk.new)) }
        ensures end { IfOk result (λ n. n ≡ 0 → IsAtEnd (R.remaining self.new.inner)) }
        ensures well { OnOk result (self.new.failed ≡ self.old.failed) }
        ensures none { OnErr result (Keeps (R.remaining self.old.inner) (R.remaining self.new.inner)) }
        ensures failed { OnErr result (self.new.failed ≡ true) }
        ensures counted { self.new.reads ≡ min (self.old.reads + 1) (2 ^ 64 - 1) }
    {
        self.reads = self.reads.saturating_add(1);
        let read = self.inner.read(chunk);
        self.failed |= read.is_err();
        read
    }
}

impl<W: Write> Watched<W> {
    ghost use Rattle.labntp_jobs.specs.{Lines.CutsShort, Lines.IsPastReading, Watched.Wrote};

    // Writes the octets, until all are taken or a write fails. Then a part from their front was written. Each write is tried once.
    // An error is noted as a failure, and so is that it took no octet.
    pub(crate) fn write_all(&mut self, octets: &[u8]) -> Result<(), ReplayFaultKind>
        ensures ok { OnOk result (Wrote W.contents self.old self.new octets.now) }
        ensures well { OnOk result (self.new.failed ≡ self.old.failed) }
        ensures err { IfErr result (λ kind. (part : List ℕ) × CutsShort kind octets.now part
            × Wrote W.contents self.old self.new part) }
        ensures past_reading { IfErr result (IsPastReading self.new.failed) }
    {
        let mut at = 0;
        while at < octets.len() {
            match self.inner.write(&octets[at..]) {
                Ok(0) | Err(_) => {
                    self.failed = true;
                    return Err(ReplayFaultKind::Write);
                }
                Ok(n) => at += n,
            }
        }
        Ok(())
    }
}
