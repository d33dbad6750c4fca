//! Files that are replaced, so that a reader sees either of them whole.

use std::fs::{self, Files, OpenOptions};
use std::io::{self, ErrorKind, Write};

// A file that is made anew at a path, to be written: what stands there is taken away first, and no link is followed.
pub(crate) fn new_file<R: Files>(files: &R, path: &str) -> io::Result<R::File> {
    match fs::remove_file(files, path) {
        Err(error) if error.kind() != ErrorKind::NotFound => return Err(error),
        _ => {}
    }
    let mut how = OpenOptions::new();
    how.write(true).create_new(true).open(files, path)
}

// Replaces the file at a path by a new one with these octets. It is written first at `beside`, a path in the same directory.
pub(crate) fn replace_file(
    files: &impl Files,
    beside: &str,
    path: &str,
    octets: &[u8],
) -> io::Result<()> {
    let mut file = new_file(files, beside)?;
    let written = file.write_all(octets);
    put_in_place(files, beside, path, written)
}

// Renames the file at `beside`, if it was written, to a path. Where that fails it is removed, and takes no room.
pub(crate) fn put_in_place<R: Files>(
    files: &R,
    beside: &str,
    path: &str,
    written: io::Result<()>,
) -> io::Result<()> {
    let put = written.and_then(|()| fs::rename(files, beside, path));
    if put.is_err() {
        let _ = fs::remove_file(files, beside);
    }
    put
}
