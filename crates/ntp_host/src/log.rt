//! The log of the daemon, for which nothing waits.

use crate::socket::ready;
use libc::net::{POLLNVAL, POLLOUT, poll};
use std::alloc::{AllocError, Global};
use std::io::Write;

const STANDARD_OUTPUT: i32 = 1;

const STANDARD_ERROR: i32 = 2;

/// How many octets a line has at most: a pipe that can be written to takes as many at once (pipe(7)).
const MOST_LINE_OCTETS: usize = 4096;

/// How lines of the log begin: with their words, or with `<N>`, the priority, which the journal takes off again (sd-daemon(3)).
#[derive(Clone, Copy, PartialEq, Eq)]
pub enum LogForm {
    Plain,
    WithPriorities,
}

/// How much a line of the log matters, as syslog counts it (RFC 5424, 6.2.1). A notice tells that something is well again.
#[derive(Clone, Copy)]
pub enum Priority {
    Error = 3,
    Warning = 4,
    Notice = 5,
    Information = 6,
}

/// Writes lines to standard error, each in one piece. One that would have to wait is dropped and counted.
#[derive(Drop)]
pub struct Log<W: Write + Drop> {
    out: W,
    form: LogForm,
    line: Vec<u8>,
    /// How many lines were dropped.
    pub dropped: u64,
}

impl<W: Write + Drop> Log<W> {
    /// A log that writes to `out`, which is standard error. The room for its lines is taken from `alloc` here.
    pub fn new(alloc: Global, out: W, form: LogForm) -> Result<Log<W>, AllocError> {
        Ok(Log {
            out,
            form,
            line: Vec::with_capacity(alloc, MOST_LINE_OCTETS)?,
            dropped: 0,
        })
    }

    /// Begins a line of a priority, and returns where its words are written, without a line feed.
    pub fn begin(&mut self, priority: Priority) -> &mut Vec<u8> {
        self.line.clear();
        if self.form == LogForm::WithPriorities {
            let _ = write!(self.line, "<{}>", priority as u8);
        }
        &mut self.line
    }

    /// Ends the line that was begun, and writes it or drops it.
    pub fn end(&mut self) {
        let has_room = self.line.len() < MOST_LINE_OCTETS && self.line.push(b'\n').is_ok();
        let would_take = ready(STANDARD_ERROR, POLLOUT) & (POLLOUT | POLLNVAL) == POLLOUT;
        if !has_room || !would_take || self.out.write_all(&self.line).is_err() {
            self.dropped = self.dropped.saturating_add(1);
        }
    }
}

/// Whether standard output and standard error are open: else a file or a socket that is opened would get what is written to them.
pub fn has_standard_streams() -> bool {
    let is_open = |descriptor| ready(descriptor, 0) & POLLNVAL == 0;
    is_open(STANDARD_OUTPUT) && is_open(STANDARD_ERROR)
}

/// Waits for `milliseconds` thousandths of a second.
pub fn pause(milliseconds: i32) {
    poll(&mut [], milliseconds);
}
