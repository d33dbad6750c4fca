//! A reader or a writer that fails behind a number of octets.
ghost use Rattle.std.specs.Prelude.{◌≡◌, ◌≤◌, IfOk};

use std::io::{self, ErrorKind, Read, Write};

/// Passes a number of octets on, from a reader or to a writer, and then fails.
#[derive(Drop)]
pub(crate) struct FailAfter<T> {
    inner: T,
    // How many octets it still passes on.
    left: usize,
}

impl<T> FailAfter<T> {
    pub(crate) fn new(inner: T, octets: usize) -> FailAfter<T> {
        FailAfter {
            inner,
            left: octets,
        }
    }

    /// What is read or written behind it.
    pub(crate) fn into_inner(self) -> T {
        let FailAfter { inner, left: _ } = self;
        inner
    }

    // How many of `octets` octets it passes on at this call.
    fn passes(&self, octets: usize) -> io::Result<usize>
        ensures asked { IfOk result (λ count. count ≤ octets) }
        ensures left { IfOk result (λ count. count ≤ self.now.left) }
    {
        if self.left == 0 {
            return Err(io::Error::from(ErrorKind::Other));
        }
        Ok(octets.min(self.left))
    }
}

impl<R: Read> Read for FailAfter<R> {
    fn read(&mut self, buf: &mut [u8]) -> io::Result<usize> {
        let most = self.passes(buf.len())?;
        let count = self.inner.read(&mut buf[..most])?;
        self.left -= count;
        Ok(count)
    }
}

impl<W: Write> Write for FailAfter<W> {
    fn write(&mut self, buf: &[u8]) -> io::Result<usize> {
        let most = self.passes(buf.len())?;
        let count = self.inner.write(&buf[..most])?;
        self.left -= count;
        Ok(count)
    }

    fn flush(&mut self) -> io::Result<()> {
        Ok(())
    }
}
