//! A file that others append to, and whether it was written anew in its place.
ghost use Rattle.std.specs.Prelude.{◌≡◌, ◌≢◌, ◌↔◌, ◌+◌, ◌≤◌, ℕ, List, Option, None, IsTrue, IfOk, IfSome};
ghost use Rattle.std.specs.Result.{result_ok};
ghost use Rattle.ntp_host.specs.declared.appended_file.FileState.{FileState};
ghost use Rattle.ntp_host.specs.Looking.{IsOfFile, StandsAt, AnswersState};

use crate::MOST_COMMANDS_OCTETS;
use crate::whole_file::open_file;
use std::fs::{self, Files, OpenFile};
use std::io::{self, Read, Seek, SeekFrom};
use std::os::unix::fs::MetadataExt;

/// For how many nanoseconds a modified file may become no longer: a write changes the time first, and then stores its octets.
const LONGEST_WRITE: u64 = 5_000_000_000;

/// A file's device, number there, length in octets, and last modification, in seconds since 1970 and nanoseconds of them.
#[derive(Clone, Copy, PartialEq, Eq)]
pub struct FileState {
    pub device: u64,
    pub node: u64,
    pub length: u64,
    pub seconds: i64,
    pub nanos: i64,
}

/// What was seen of a file that grows. Moments are in nanoseconds of a clock that never goes back.
#[derive(Drop)]
pub(crate) struct Growth {
    longest: FileState,
    last: FileState,
    // When it was first found in its last state.
    since: u64,
    ghost below: { last.length ≤ longest.length },
}

impl Growth {
    pub(crate) fn new(state: FileState) -> Growth {
        Growth {
            longest: state,
            last: state,
            since: 0,
        }
    }

    pub(crate) fn is_of_file(&self, found: FileState) -> bool
        ensures { IsTrue result ↔ IsOfFile self.now.last found }
    {
        found.device == self.last.device && found.node == self.last.node
    }

    pub(crate) fn see(&mut self, found: FileState, now: u64)
        ensures last { self.new.last ≡ found }
        ensures since { found ≢ self.old.last → self.new.since ≡ now }
        ensures again { found ≡ self.old.last → self.new ≡ self.old }
    {
        if found != self.last {
            self.since = now;
        }
        self.last = found;
        if found.length > self.longest.length {
            self.longest = found;
        }
    }

    /// Returns whether it has stayed in another state than the longest for `LONGEST_WRITE`, at a look at `now`.
    pub(crate) fn is_rewritten(&self, now: u64) -> bool
        ensures { IsTrue result ↔ ((self.now.last ≢ self.now.longest) × (self.now.since + 5000000000 ≤ now)) }
    {
        self.last != self.longest && now.saturating_sub(self.since) >= LONGEST_WRITE
    }
}

/// A file that stays open, and the path at which it was found. It may tell its octets, and the states that it will be found in.
pub trait AppendedFile: Drop {
    // The octets that it has in the end, as long as it is appended to alone, where it tells them.
    ghost octets: { Self → Option (List ℕ) } = { λ _. None };

    // What the next calls for a state will answer in turn, where it tells that: nothing where one fails.
    ghost states: { Self → Option (List (Option FileState)) } = { λ _. None };

    /// The state of the file, or that of what stands at its path.
    fn state(&mut self, at_path: bool) -> io::Result<FileState>
        ensures octets { octets self.new ≡ octets self.old }
        ensures states { AnswersState (states self.old) (states self.new) (result_ok result) };

    /// Fills `room` with the octets that the file has behind the first `from`.
    fn read_behind(&mut self, from: u64, room: &mut [u8]) -> io::Result<()>
        ensures octets { octets self.new ≡ octets self.old }
        ensures states { states self.new ≡ states self.old }
        ensures read { IfOk result (λ _. IfSome (octets self.old) (λ file. StandsAt file from room.new)) };
}

/// A regular file of the host. Nothing is known of what it has.
#[derive(Drop)]
pub struct HostFile<'a, R: Files> {
    files: &'a R,
    path: &'a str,
    file: R::File,
}

impl<'a, R: Files> HostFile<'a, R> {
    /// Opens the regular file at `path`, and reads `MOST_COMMANDS_OCTETS` of it once, so that no start carries out a part of one
    /// that cannot be read to its end. The error is the system's, or says that a regular file is wanted.
    pub fn open(files: &'a R, path: &'a str) -> io::Result<HostFile<'a, R>> {
        let mut file = open_file(files, path, false)?;
        io::copy(&mut (&mut file).take(MOST_COMMANDS_OCTETS), &mut io::sink())?;
        Ok(HostFile { files, path, file })
    }
}

impl<'a, R: Files> AppendedFile for HostFile<'a, R> {
    fn state(&mut self, at_path: bool) -> io::Result<FileState> {
        let metadata = match at_path {
            true => fs::metadata(self.files, self.path)?,
            false => self.file.metadata()?,
        };
        Ok(FileState {
            device: metadata.dev(),
            node: metadata.ino(),
            length: metadata.len(),
            seconds: metadata.mtime(),
            nanos: metadata.mtime_nsec(),
        })
    }

    fn read_behind(&mut self, from: u64, room: &mut [u8]) -> io::Result<()> {
        self.file.seek(SeekFrom::Start(from))?;
        self.file.read_exact(room)
    }
}
