//! Files that are opened: regular ones alone, so that nothing waits for who has the other end of a pipe.

use std::alloc::Allocator;
use std::fs::{self, Files, OpenFile, OpenOptions};
use std::io::{self, ErrorKind, Read};

/// Reads the regular file at a path, to one octet more than `most`. Fails as the system, with `OutOfMemory`, or for another file.
pub fn read_regular_file<R: Files, A: Allocator + Copy>(
    files: &R,
    alloc: A,
    path: &str,
    most: u32,
) -> io::Result<Vec<u8, A>> {
    octets_of(open_file(files, path, false)?, alloc, most)
}

/// Reads the regular file at a path so, where another user may put a pipe in its place at any moment.
pub fn read_shared_file<R: Files, A: Allocator + Copy>(
    files: &R,
    alloc: A,
    path: &str,
    most: u32,
) -> io::Result<Vec<u8, A>> {
    octets_of(open_shared_file(files, path)?, alloc, most)
}

fn octets_of<A: Allocator>(file: impl Read + Drop, alloc: A, most: u32) -> io::Result<Vec<u8, A>> {
    let mut octets = Vec::new(alloc);
    file.take(u64::from(most) + 1).read_to_end(&mut octets)?;
    Ok(octets)
}

/// Opens the regular file at a path, to be read, where another user may put a pipe in its place at any moment.
pub fn open_shared_file<R: Files>(files: &R, path: &str) -> io::Result<R::File> {
    open_file(files, path, true)
}

/// Opens the regular file at a path, to be read. One that is shared is opened for writing too, if it may be: so a pipe is opened
/// at once, whoever holds its other end (fifo(7)).
pub(crate) fn open_file<R: Files>(files: &R, path: &str, is_shared: bool) -> io::Result<R::File> {
    let mut how = OpenOptions::new();
    // To open a pipe might take for ever.
    if fs::metadata(files, path)?.is_file() {
        let file = match how.read(true).write(is_shared).open(files, path) {
            Err(error) if is_shared && error.kind() == ErrorKind::PermissionDenied => {
                fs::open(files, path)?
            }
            file => file?,
        };
        if file.metadata()?.is_file() {
            return Ok(file);
        }
    }
    Err(not_regular())
}

/// That a regular file is wanted, as an error.
pub fn not_regular() -> io::Error {
    io::Error::new(ErrorKind::InvalidInput, "a regular file is wanted")
}

/// The regular file at a path, made if none is there, and emptied; writes go to its end. Fails as the system, or for another file.
pub fn emptied_file<R: Files>(files: &R, path: &str) -> io::Result<R::File> {
    // A pipe that is opened for reading and writing is opened at once, whoever holds its other end (fifo(7)).
    let mut how = OpenOptions::new();
    let file = how.read(true).append(true).create(true).open(files, path)?;
    if !file.metadata()?.is_file() {
        return Err(not_regular());
    }
    file.set_len(0)?;
    Ok(file)
}
