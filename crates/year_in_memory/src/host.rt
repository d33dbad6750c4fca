//! A host in memory: files, and clocks that show what they are told.

use crate::files::{Disk, MemoryFile};
use ntp_packet::Moment;
use std::alloc::Allocator;
use std::cell::Cell;
use std::fs::{Files, Metadata, OpenOptions};
use std::io::{self, ErrorKind};
use std::test::Fail;
use std::time::{Clock, Duration};

/// A second, in nanoseconds.
pub const SECOND: u64 = 1_000_000_000;

/// When the year begins, in seconds since 1970: 2026-01-01 at 00:00 UTC. Windows of 64 seconds begin with each day.
const YEAR_BEGIN: u64 = 1_767_225_600;

/// After how many seconds of the year the clock is set back, and by how many: on day 180 by a day, so that it shows the same moments again.
const SET_BACK: (u64, u64) = (15_552_000, 86_400);

// What the clock shows `nanos` nanoseconds after the beginning of the year, in whole seconds since 1970.
fn seconds_at(nanos: u64) -> u64 {
    let (when, by) = SET_BACK;
    let passed = nanos / SECOND;
    let shown = if passed < when { passed } else { passed - by };
    YEAR_BEGIN.saturating_add(shown)
}

/// The moment that the clock shows `nanos` nanoseconds after the beginning of the year.
pub fn moment_at(nanos: u64) -> Result<Moment, Fail> {
    let seconds = i128::from(seconds_at(nanos));
    Ok(Moment::from_unix(seconds, (nanos % SECOND) as u32)?)
}

/// Files in memory, and clocks that show `nanos` nanoseconds of the year; that of the day is set back once.
#[derive(Drop)]
pub struct MemoryHost<'a> {
    /// The files.
    pub disk: &'a Disk,
    /// What the clocks show.
    pub nanos: Cell<u64>,
}

impl<'a> Clock for MemoryHost<'a> {
    fn monotonic(&self) -> io::Result<Duration> {
        Ok(Duration::from_nanos(self.nanos.get()))
    }

    fn since_1970(&self) -> io::Result<Duration> {
        let nanos = self.nanos.get();
        let rest = Duration::from_nanos(nanos % SECOND);
        Ok(Duration::from_secs(seconds_at(nanos)).saturating_add(rest))
    }
}

impl<'a> Files for MemoryHost<'a> {
    type File = MemoryFile<'a>;

    type Dir = MemoryFile<'a>;

    fn open_file(&self, how: &OpenOptions, path: &str) -> io::Result<MemoryFile<'a>> {
        self.disk.open(how, path)
    }

    fn open_dir(&self, _path: &str) -> io::Result<MemoryFile<'a>> {
        Err(io::Error::from(ErrorKind::Unsupported))
    }

    fn metadata(&self, path: &str) -> io::Result<Metadata> {
        self.disk.metadata(path)
    }

    fn symlink_metadata(&self, path: &str) -> io::Result<Metadata> {
        self.disk.metadata(path)
    }

    fn copy(&self, _from: &str, _to: &str) -> io::Result<u64> {
        Err(io::Error::from(ErrorKind::Unsupported))
    }

    fn rename(&self, from: &str, to: &str) -> io::Result<()> {
        self.disk.rename(from, to)
    }

    fn remove_file(&self, path: &str) -> io::Result<()> {
        self.disk.remove(path)
    }

    fn create_dir(&self, _path: &str) -> io::Result<()> {
        Err(io::Error::from(ErrorKind::Unsupported))
    }

    fn remove_dir(&self, _path: &str) -> io::Result<()> {
        Err(io::Error::from(ErrorKind::Unsupported))
    }

    fn remove_dir_all<B: Allocator>(&self, _alloc: B, _path: &str) -> io::Result<()> {
        Err(io::Error::from(ErrorKind::Unsupported))
    }
}
