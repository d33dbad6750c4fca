//! Files whose calls are counted.

use std::alloc::Allocator;
use std::cell::Cell;
use std::fs::{Files, Metadata, OpenFile, OpenOptions};
use std::io::{self, Read, Seek, SeekFrom, Write};

/// The files of another one, which count the calls that ask for metadata, that open and that read.
#[derive(Drop)]
pub(crate) struct Counting<'a, R: Files> {
    files: &'a R,
    calls: &'a Cell<u64>,
}

impl<'a, R: Files> Counting<'a, R> {
    /// Files whose calls are counted here.
    pub(crate) fn new(files: &'a R, calls: &'a Cell<u64>) -> Counting<'a, R> {
        Counting { files, calls }
    }
}

// One more call.
fn count(calls: &Cell<u64>) {
    calls.set(calls.get().saturating_add(1));
}

impl<'a, R: Files> Files for Counting<'a, R> {
    type File = CountingFile<'a, R::File>;

    type Dir = R::Dir;

    fn open_file(&self, how: &OpenOptions, path: &str) -> io::Result<CountingFile<'a, R::File>> {
        count(self.calls);
        let file = self.files.open_file(how, path)?;
        Ok(CountingFile {
            file,
            calls: self.calls,
        })
    }

    fn open_dir(&self, path: &str) -> io::Result<R::Dir> {
        self.files.open_dir(path)
    }

    fn metadata(&self, path: &str) -> io::Result<Metadata> {
        count(self.calls);
        self.files.metadata(path)
    }

    fn symlink_metadata(&self, path: &str) -> io::Result<Metadata> {
        count(self.calls);
        self.files.symlink_metadata(path)
    }

    fn copy(&self, from: &str, to: &str) -> io::Result<u64> {
        self.files.copy(from, to)
    }

    fn rename(&self, from: &str, to: &str) -> io::Result<()> {
        self.files.rename(from, to)
    }

    fn remove_file(&self, path: &str) -> io::Result<()> {
        self.files.remove_file(path)
    }

    fn create_dir(&self, path: &str) -> io::Result<()> {
        self.files.create_dir(path)
    }

    fn remove_dir(&self, path: &str) -> io::Result<()> {
        self.files.remove_dir(path)
    }

    fn remove_dir_all<B: Allocator>(&self, alloc: B, path: &str) -> io::Result<()> {
        self.files.remove_dir_all(alloc, path)
    }
}

/// A file that counts its calls too.
#[derive(Drop)]
pub(crate) struct CountingFile<'a, F: Drop> {
    file: F,
    calls: &'a Cell<u64>,
}

impl<'a, F: Read + Drop> Read for CountingFile<'a, F> {
    fn read(&mut self, octets: &mut [u8]) -> io::Result<usize> {
        count(self.calls);
        self.file.read(octets)
    }
}

impl<'a, F: Write + Drop> Write for CountingFile<'a, F> {
    fn write(&mut self, octets: &[u8]) -> io::Result<usize> {
        self.file.write(octets)
    }

    fn flush(&mut self) -> io::Result<()> {
        self.file.flush()
    }
}

impl<'a, F: Seek + Drop> Seek for CountingFile<'a, F> {
    fn seek(&mut self, to: SeekFrom) -> io::Result<u64> {
        self.file.seek(to)
    }
}

impl<'a, F: OpenFile + Drop> OpenFile for CountingFile<'a, F> {
    fn metadata(&self) -> io::Result<Metadata> {
        count(self.calls);
        self.file.metadata()
    }

    fn set_len(&self, size: u64) -> io::Result<()> {
        self.file.set_len(size)
    }

    fn sync_all(&self) -> io::Result<()> {
        self.file.sync_all()
    }

    fn sync_data(&self) -> io::Result<()> {
        self.file.sync_data()
    }
}
