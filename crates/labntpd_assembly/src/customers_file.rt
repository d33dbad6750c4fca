//! The customers file: what each customer has, what it was answered, and when its keys signed.

use crate::files::FileFault;
use crate::replaced_file::{new_file, put_in_place};
use ntp_reports::{CustomerCounts, customer_line};
use ntp_service::Service;
use std::alloc::{AllocError, Global};
use std::fs::{self, Files};
use std::io::{self, Write};

/// How many seconds lie between two writings where nothing changed.
const PERIOD: u64 = 60;

/// How many seconds after its start a writing is tried again that failed.
const PATIENCE: u64 = 10;

// A file that is being written, and how many customers were written of.
#[derive(Drop)]
struct Writing<F: Drop> {
    file: F,
    customers: usize,
}

/// Writes the customers file: it is replaced as a whole when a command was carried out or a tool asks, and each minute. Each
/// piece of it has the customers as they are when it is written.
#[derive(Drop)]
pub struct CustomersFile<'a, R: Files> {
    files: &'a R,
    path: &'a str,
    // The path of the file beside it in which it is written, and that of one with which a tool asks for it.
    beside: String,
    wanted: String,
    alloc: Global,
    text: Vec<u8>,
    writing: Option<Writing<R::File>>,
    // After how many seconds it is written again, whatever happens.
    due: u64,
    // After how many seconds its last writing started, and how many commands were carried out then.
    started: u64,
    done: u64,
    fault: Option<FileFault>,
}

impl<'a, R: Files> CustomersFile<'a, R> {
    /// The file at a path, which is due at once. It takes memory for its text from `alloc`.
    pub fn new(
        files: &'a R,
        alloc: Global,
        path: &'a str,
    ) -> Result<CustomersFile<'a, R>, AllocError> {
        Ok(CustomersFile {
            files,
            path,
            beside: format!(in alloc; "{path}.new")?,
            wanted: format!(in alloc; "{path}.wanted")?,
            alloc,
            text: Vec::new(alloc),
            writing: None,
            due: 0,
            started: 0,
            done: 0,
            fault: None,
        })
    }

    /// Opens the file to write it, where it is due after `seconds` seconds, where `done`, the count of commands carried out, has
    /// changed, or where a tool asks. Returns what is wrong with it by now, if anything.
    pub fn begin_in_time(&mut self, seconds: u64, done: u64) -> Option<FileFault> {
        let is_due = seconds >= self.due || done != self.done;
        if self.writing.is_some() || !(is_due || self.is_wanted()) {
            return self.fault;
        }
        self.started = seconds;
        self.done = done;
        match new_file(self.files, self.beside.as_str()) {
            Ok(file) => {
                self.due = seconds.saturating_add(PERIOD);
                self.writing = Some(Writing { file, customers: 0 });
            }
            Err(error) => self.fail(error),
        }
        self.fault
    }

    /// Writes the next piece, of `piece` customers, where writing has started.
    pub fn go_on(&mut self, counts: &CustomerCounts, service: &Service, piece: usize) {
        let Some(mut writing) = self.writing.take() else {
            return;
        };
        let written = self.write_piece(&mut writing, counts, service, piece);
        if written.is_ok() && writing.customers < counts.len() {
            self.writing = Some(writing);
            return;
        }
        drop(writing);
        match put_in_place(self.files, self.beside.as_str(), self.path, written) {
            Err(error) => self.fail(error),
            Ok(()) if counts.has_missed() => self.fault = Some(FileFault::Incomplete),
            Ok(()) => self.fault = None,
        }
    }

    // Removes the file with which a tool asks. Returns whether it was there.
    fn is_wanted(&self) -> bool {
        fs::remove_file(self.files, self.wanted.as_str()).is_ok()
    }

    // The last writing has failed.
    fn fail(&mut self, error: io::Error) {
        self.due = self.started.saturating_add(PATIENCE);
        self.fault = Some(FileFault::Unwritten(error));
    }

    // Writes of the next customers.
    fn write_piece(
        &mut self,
        writing: &mut Writing<R::File>,
        counts: &CustomerCounts,
        service: &Service,
        piece: usize,
    ) -> io::Result<()> {
        self.text.clear();
        for _ in 0..piece {
            let Some((address, report)) = counts.nth(writing.customers) else {
                break;
            };
            if let Some(customer) = service.customer(*address) {
                let line = customer_line(self.alloc, *address, customer, report)?;
                self.text.extend_from_slice(&line)?;
            }
            writing.customers = writing.customers.saturating_add(1);
        }
        writing.file.write_all(&self.text)
    }
}
