//! A reader or a writer that gives or takes one octet at a call, counts its calls, and fails at one.
ghost use Rattle.std.specs.Prelude.{◌≡◌, IfOk, IfSome};

use std::io::{self, ErrorKind, Read, Write};

#[derive(Drop)]
pub(crate) struct Faulty<T> {
    inner: T,
    calls: u64,
    // The call that fails, counted from 1.
    failing: u64,
    // How it fails: where there is no kind, it gives or takes nothing.
    kind: Option<ErrorKind>,
}

impl<T> Faulty<T> {
    pub(crate) fn new(inner: T, failing: u64, kind: Option<ErrorKind>) -> Faulty<T> {
        Faulty {
            inner,
            calls: 0,
            failing,
            kind,
        }
    }

    // One that never fails.
    pub(crate) fn sound(inner: T) -> Faulty<T> {
        Faulty::new(inner, 0, None)
    }

    // How many calls there were, and what was read or written.
    pub(crate) fn into_parts(self) -> (u64, T) {
        let Faulty {
            inner,
            calls,
            failing: _,
            kind: _,
        } = self;
        (calls, inner)
    }

    // Counts a call, and gives its end where it is the one that fails.
    fn count(&mut self) -> Option<io::Result<usize>>
        ensures { IfSome result (λ end. IfOk end (λ n. n ≡ 0)) }
    {
        self.calls = self.calls.saturating_add(1);
        if self.calls != self.failing {
            return None;
        }
        Some(match self.kind {
            None => Ok(0),
            Some(kind) => Err(io::Error::from(kind)),
        })
    }
}

impl<R: Read> Read for Faulty<R> {
    fn read(&mut self, buf: &mut [u8]) -> io::Result<usize> {
        if let Some(end) = self.count() {
            return end;
        }
        let most = buf.len().min(1);
        self.inner.read(&mut buf[..most])
    }
}

impl<W: Write> Write for Faulty<W> {
    fn write(&mut self, buf: &[u8]) -> io::Result<usize> {
        if let Some(end) = self.count() {
            return end;
        }
        self.inner.write(&buf[..buf.len().min(1)])
    }

    fn flush(&mut self) -> io::Result<()> {
        Ok(())
    }
}
