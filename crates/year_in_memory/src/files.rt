//! Files in memory.

use std::alloc::Global;
use std::cell::{Cell, RefCell};
use std::fs::{Metadata, OpenFile, OpenOptions};
use std::io::{self, ErrorKind, Read, Seek, SeekFrom, Write};

/// The path of the commands file.
pub const COMMANDS: &str = "/commands";

/// The path of the answers to commands.
pub const ANSWERS: &str = "/answers";

/// The path of the statistics.
pub const STATISTICS: &str = "/statistics";

/// The path of the customers file.
pub const CUSTOMERS: &str = "/customers";

/// The path at which the log is written.
pub const LOG: &str = "/log";

/// Of how many calls for the file at a place one fails.
const ONE_FAILS_OF: u64 = 37;

/// How many octets one write takes at most.
const MOST_WRITTEN: usize = 1_000;

/// A place at which a file may stand.
#[derive(Drop)]
pub struct Place {
    path: &'static str,
    is_there: Cell<bool>,
    octets: RefCell<Vec<u8>>,
    // How many calls were made for its file.
    calls: Cell<u64>,
}

impl Place {
    // A place with no file.
    fn new(alloc: Global, path: &'static str) -> Place {
        Place {
            path,
            is_there: Cell::new(false),
            octets: RefCell::new(Vec::new(alloc)),
            calls: Cell::new(0),
        }
    }

    // Counts a call for its file, which fails if it is one of those that do.
    fn call(&self) -> io::Result<()> {
        let calls = self.calls.get().saturating_add(1);
        self.calls.set(calls);
        if calls % ONE_FAILS_OF == 0 {
            return Err(io::Error::from(ErrorKind::Other));
        }
        Ok(())
    }

    /// Adds octets to its end.
    pub fn append(&self, octets: &[u8]) -> io::Result<()> {
        let Ok(mut all) = self.octets.try_borrow_mut() else {
            return Err(io::Error::from(ErrorKind::ResourceBusy));
        };
        all.extend_from_slice(octets)?;
        Ok(())
    }

    // Puts a file there in the place of what stands there, and gives what stood there.
    fn put(&self, octets: Vec<u8>) -> io::Result<Vec<u8>> {
        self.is_there.set(true);
        match self.octets.try_replace(octets) {
            Ok(before) => Ok(before),
            Err(_) => Err(io::Error::from(ErrorKind::ResourceBusy)),
        }
    }

    // Takes the file away, and gives what it had.
    fn take(&self, alloc: Global) -> io::Result<Vec<u8>> {
        let octets = self.put(Vec::new(alloc))?;
        self.is_there.set(false);
        Ok(octets)
    }

    // How many octets the file has.
    fn length(&self) -> io::Result<u64> {
        match self.octets.try_borrow() {
            Ok(octets) => Ok(octets.len() as u64),
            Err(_) => Err(io::Error::from(ErrorKind::ResourceBusy)),
        }
    }
}

/// All places, which have paths of their own.
#[derive(Drop)]
pub struct Disk {
    alloc: Global,
    places: [Place; 7],
}

impl Disk {
    /// Places with no file. The memory of files will be taken from `alloc`.
    pub fn new(alloc: Global) -> Disk {
        Disk {
            alloc,
            places: [
                Place::new(alloc, COMMANDS),
                Place::new(alloc, ANSWERS),
                Place::new(alloc, STATISTICS),
                Place::new(alloc, "/statistics.new"),
                Place::new(alloc, CUSTOMERS),
                Place::new(alloc, "/customers.new"),
                Place::new(alloc, LOG),
            ],
        }
    }

    /// The place with a path.
    pub fn place(&self, path: &str) -> io::Result<&Place> {
        for place in &self.places {
            if place.path == path {
                return Ok(place);
            }
        }
        Err(io::Error::from(ErrorKind::NotFound))
    }

    // The place with a path at which a file stands.
    fn file(&self, path: &str) -> io::Result<&Place> {
        let place = self.place(path)?;
        if place.is_there.get() {
            Ok(place)
        } else {
            Err(io::Error::from(ErrorKind::NotFound))
        }
    }

    /// Makes an empty file at a path.
    pub fn made<'a>(&'a self, path: &str) -> io::Result<MemoryFile<'a>> {
        let place = self.place(path)?;
        place.put(Vec::new(self.alloc))?;
        Ok(MemoryFile { place, at: 0 })
    }

    /// Whether a call has failed for each file that is read, or written anew.
    pub fn have_all_failed(&self) -> bool {
        let mut places = self.places.iter();
        places.all(|place| {
            matches!(place.path, STATISTICS | CUSTOMERS | ANSWERS | LOG)
                || place.calls.get() >= ONE_FAILS_OF
        })
    }

    /// The text of the file at a path.
    pub fn text(&self, path: &str) -> io::Result<String> {
        let octets = self.file(path)?.take(self.alloc)?;
        match String::from_utf8(octets) {
            Ok(text) => Ok(text),
            Err(_) => Err(io::Error::from(ErrorKind::InvalidData)),
        }
    }

    /// Opens the file at a path as `how` says. Where it is made, it is empty.
    pub fn open<'a>(&'a self, how: &OpenOptions, path: &str) -> io::Result<MemoryFile<'a>> {
        how.check()?;
        let place = self.place(path)?;
        place.call()?;
        if how.asks_create_new() && place.is_there.get() {
            return Err(io::Error::from(ErrorKind::AlreadyExists));
        }
        if !place.is_there.get() {
            if !how.asks_create_new() && !how.asks_create() {
                return Err(io::Error::from(ErrorKind::NotFound));
            }
            place.put(Vec::new(self.alloc))?;
        }
        Ok(MemoryFile { place, at: 0 })
    }

    /// What is known of the file at a path beside its octets.
    pub fn metadata(&self, path: &str) -> io::Result<Metadata> {
        let place = self.file(path)?;
        place.call()?;
        Ok(Metadata::of_file(place.length()?))
    }

    /// Gives the file at a path another one.
    pub fn rename(&self, from: &str, to: &str) -> io::Result<()> {
        let place = self.file(from)?;
        place.call()?;
        self.place(to)?.put(place.take(self.alloc)?)?;
        Ok(())
    }

    /// Takes the file at a path away.
    pub fn remove(&self, path: &str) -> io::Result<()> {
        self.file(path)?.take(self.alloc)?;
        Ok(())
    }
}

/// An open file, which is read from its beginning on and written at its end.
#[derive(Drop)]
pub struct MemoryFile<'a> {
    place: &'a Place,
    at: usize,
}

impl<'a> Read for MemoryFile<'a> {
    fn read(&mut self, octets: &mut [u8]) -> io::Result<usize> {
        self.place.call()?;
        let Ok(all) = self.place.octets.try_borrow() else {
            return Err(io::Error::from(ErrorKind::ResourceBusy));
        };
        let rest = all.get(self.at..).unwrap_or(&[]);
        let count = rest.len().min(octets.len());
        octets[..count].copy_from_slice(&rest[..count]);
        self.at = self.at.saturating_add(count);
        Ok(count)
    }
}

impl<'a> Write for MemoryFile<'a> {
    // What the log and the answers have shall be whole, so no write to them fails.
    fn write(&mut self, octets: &[u8]) -> io::Result<usize> {
        if self.place.path != ANSWERS && self.place.path != LOG {
            self.place.call()?;
        }
        let taken = &octets[..octets.len().min(MOST_WRITTEN)];
        self.place.append(taken)?;
        Ok(taken.len())
    }

    fn flush(&mut self) -> io::Result<()> {
        Ok(())
    }
}

impl<'a> Seek for MemoryFile<'a> {
    fn seek(&mut self, to: SeekFrom) -> io::Result<u64> {
        let SeekFrom::Start(at) = to else {
            return Err(io::Error::from(ErrorKind::Unsupported));
        };
        self.at = at as usize;
        Ok(at)
    }
}

impl<'a> OpenFile for MemoryFile<'a> {
    fn metadata(&self) -> io::Result<Metadata> {
        Ok(Metadata::of_file(self.place.length()?))
    }

    fn set_len(&self, size: u64) -> io::Result<()> {
        let Ok(mut all) = self.place.octets.try_borrow_mut() else {
            return Err(io::Error::from(ErrorKind::ResourceBusy));
        };
        if size > 0 {
            return Err(io::Error::from(ErrorKind::Unsupported));
        }
        all.clear();
        Ok(())
    }

    fn sync_all(&self) -> io::Result<()> {
        Ok(())
    }

    fn sync_data(&self) -> io::Result<()> {
        Ok(())
    }
}
