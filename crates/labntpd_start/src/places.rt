//! Where the files of a configuration stand: no two of them at one place, and those that are written in directories that are
//! there.

use labntpd_files::{Clock, Configuration};
use ntp_admin::{Escaped, Status, memory_status};
use ntp_host::not_regular;
use std::alloc::Global;
use std::fmt;
use std::fs::{self, Files};
use std::io::{self, ErrorKind, Write};
use std::os::unix::fs::MetadataExt;

/// The bits of a file's mode that let others than its owner and its group use it (inode(7)).
const OTHERS: u32 = 0o007;

/// What is done with a file.
#[derive(Clone, Copy, PartialEq, Eq)]
enum Use {
    /// It is read, or removed once it is there.
    Read,
    Written,
    /// It is made anew in the place of what stands there.
    New,
}

/// A file that a configuration names, or one beside it: the key that names it, its path and what is done with it.
type Named = (&'static str, String, Use);

/// The paths of the files that a configuration names. Some may be left out.
#[derive(Clone, Copy)]
pub struct NamedFiles<'a> {
    /// The file of the configuration itself.
    pub configuration: &'a str,
    /// The commands file.
    pub commands: Option<&'a str>,
    /// The file of the key of the clock's daemon.
    pub key_file: Option<&'a str>,
    /// The file of the answers to lines of commands.
    pub answers: Option<&'a str>,
    /// The file of the statistics.
    pub statistics: Option<&'a str>,
    /// The file of what each customer has and was answered.
    pub customers: Option<&'a str>,
}

impl<'a> NamedFiles<'a> {
    /// The files of a configuration that stands at a path.
    pub(crate) fn of(path: &'a str, configuration: &'a Configuration) -> NamedFiles<'a> {
        NamedFiles {
            configuration: path,
            commands: Some(configuration.commands.as_str()),
            key_file: match &configuration.clock {
                Clock::Fixed(_) => None,
                Clock::Followed(daemon) => Some(daemon.key_file.as_str()),
            },
            answers: configuration.answers.as_ref().map(|path| path.as_str()),
            statistics: configuration.statistics.as_ref().map(|path| path.as_str()),
            customers: configuration.customers.as_ref().map(|path| path.as_str()),
        }
    }

    // Each of them, and the files beside the statistics and the customers.
    fn each(&self, alloc: Global) -> io::Result<Vec<Named>> {
        let customers = self.customers;
        let mut each = Vec::new(alloc);
        for (key, path, behind, usage) in [
            ("the configuration", Some(self.configuration), "", Use::Read),
            ("commands", self.commands, "", Use::Read),
            ("clock.key_file", self.key_file, "", Use::Read),
            ("answers", self.answers, "", Use::Written),
            ("statistics", self.statistics, "", Use::Written),
            ("statistics (FILE.new)", self.statistics, ".new", Use::New),
            ("customers", customers, "", Use::Written),
            ("customers (FILE.new)", customers, ".new", Use::New),
            ("customers (FILE.wanted)", customers, ".wanted", Use::Read),
        ] {
            if let Some(path) = path {
                let path = format!(in alloc; "{path}{behind}")?;
                each.push((key, path, usage))?;
            }
        }
        Ok(each)
    }
}

/// Writes in a line each what is wrong with where these files stand, at most `most` faults. Returns how many were written. The
/// error is the exit status for want of memory.
pub fn tell_places<R: Files, F: Write>(
    files: &R,
    alloc: Global,
    named: NamedFiles<'_>,
    most: usize,
    faults: &mut F,
) -> Result<usize, Status> {
    let each = named.each(alloc).map_err(|_| memory_status(faults))?;
    Ok(tell_each(files, &each, most, faults))
}

// Writes what is wrong with them so. The first of them is the configuration itself.
fn tell_each<R: Files, F: Write>(files: &R, each: &[Named], most: usize, faults: &mut F) -> usize {
    let config = Escaped(each.first().map_or("", |(_, path, _)| path.as_str()));
    let mut written = 0;
    for (place, (key, path, usage)) in each.iter().enumerate() {
        let (key, path) = (*key, path.as_str());
        if written < most
            && *usage != Use::Read
            && let Err(error) = writable(files, path, *usage)
        {
            let _ = writeln!(faults, "{config}: {key}: {}: {error}", Escaped(path));
            written += 1;
        }
        let mut earlier = each[..place].iter();
        if written < most
            && let Some((other, _, _)) = earlier.find(|it| are_one(files, path, it.1.as_str()))
        {
            let other = *other;
            let _ = writeln!(
                faults,
                "{config}: {key}: another file than that of {other} is wanted"
            );
            written += 1;
        }
    }
    written
}

/// That others may read a file which has keys, by the bits of its mode.
#[derive(Clone, Copy)]
pub struct Readers(u32);

impl fmt::Display for Readers {
    fn fmt<W: fmt::Write>(&self, f: &mut fmt::Formatter<W>) -> fmt::Result {
        let Readers(mode) = self;
        write!(
            f,
            "it has keys, and others than its owner and group may use it (mode {mode:o})"
        )
    }
}

/// Returns whether others than the owner and the group of the file at a path may use it.
pub fn readers_of<R: Files>(files: &R, path: &str) -> Option<Readers> {
    let metadata = fs::metadata(files, path).ok()?;
    let is_theirs = metadata.is_file() && metadata.mode() & OTHERS != 0;
    is_theirs.then_some(Readers(metadata.mode() & 0o777))
}

// Whether a file that is written may stand where it is to: in a directory, and in the place of a regular file, no link to one, or of none.
// What is made anew may have the place of anything but a directory.
fn writable<R: Files>(files: &R, path: &str, usage: Use) -> io::Result<()> {
    match fs::symlink_metadata(files, path) {
        Ok(found) if found.is_file() || usage == Use::New && !found.is_dir() => Ok(()),
        Ok(_) => Err(not_regular()),
        Err(error) if error.kind() == ErrorKind::NotFound => {
            fs::metadata(files, directory_of(path)).map(|_| ())
        }
        Err(error) => Err(error),
    }
}

// Whether two paths lead to one file, or will once it is there.
fn are_one<R: Files>(files: &R, first: &str, second: &str) -> bool {
    first == second
        || place_of(files, first).is_some_and(|place| place_of(files, second) == Some(place))
}

// The device and the node of the file at a path; where none is there yet, those of its directory, and its name.
fn place_of<'a, R: Files>(files: &R, path: &'a str) -> Option<(u64, u64, &'a str)> {
    if let Ok(metadata) = fs::metadata(files, path) {
        return Some((metadata.dev(), metadata.ino(), ""));
    }
    let metadata = fs::metadata(files, directory_of(path)).ok()?;
    let name = path.rsplit_once('/').map_or(path, |(_, name)| name);
    Some((metadata.dev(), metadata.ino(), name))
}

/// Returns the path of the directory in which a path's file stands.
pub fn directory_of(path: &str) -> &str {
    match path.rsplit_once('/') {
        None => ".",
        Some(("", _)) => "/",
        Some((directory, _)) => directory,
    }
}
