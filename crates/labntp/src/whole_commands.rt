//! A commands file that is read whole whenever it has changed.
ghost use Rattle.std.specs.Prelude.{◌≡◌, ◌≤◌, ◌<◌, length, drop, IfSome, IfNone};
ghost use Rattle.ntp_admin.specs.CommandsFile.{complete_lines};

use ntp_admin::MOST_FILE_OCTETS;
use ntp_host::read_regular_file;
use ntp_packet::Moment;
use ntp_port::CommandsSource;
use std::alloc::Allocator;
use std::fs::{self, Files, Metadata};
use std::os::unix::fs::MetadataExt;

/// The commands file of a server, which may be made, replaced and written anew while that serves: lines are known by their number.
///
/// One that cannot be read, has more than `MOST_FILE_OCTETS` octets, is not UTF-8 or has no more lines than were given gives none.
#[derive(Drop)]
pub struct WholeCommands<'a, R: Files> {
    files: &'a R,
    path: &'a str,
    // The version that was last read.
    read: Option<Version>,
    // The lines that were given.
    given: u64,
}

// A version of a file: which one it is, its length, and when something about it last changed.
#[derive(Clone, Copy, PartialEq, Eq)]
struct Version {
    device: u64,
    node: u64,
    length: u64,
    seconds: i64,
    nanos: i64,
}

impl Version {
    // Reads it in the file's metadata.
    fn of(metadata: &Metadata) -> Version {
        Version {
            device: metadata.dev(),
            node: metadata.ino(),
            length: metadata.len(),
            seconds: metadata.ctime(),
            nanos: metadata.ctime_nsec(),
        }
    }
}

impl<'a, R: Files> WholeCommands<'a, R> {
    /// Begins with the file at `path`, before its first line.
    pub fn new(files: &'a R, path: &'a str) -> WholeCommands<'a, R> {
        WholeCommands {
            files,
            path,
            read: None,
            given: 0,
        }
    }

    // Returns the octets of the file, where it has changed. Its version is asked for first: so one that changes in between is read once
    // more.
    fn changed<A: Allocator + Copy>(&mut self, alloc: A) -> Option<Vec<u8, A>> {
        let version = Version::of(&fs::metadata(self.files, self.path).ok()?);
        if self.read == Some(version) {
            return None;
        }
        let most = MOST_FILE_OCTETS as u32;
        let octets = read_regular_file(self.files, alloc, self.path, most).ok()?;
        self.read = Some(version);
        Some(octets)
    }
}

impl<'a, R: Files, A: Allocator + Copy> CommandsSource<A> for WholeCommands<'a, R> {
    /// Returns the complete lines behind those that were given, where the file has changed and has some. It takes memory from `alloc`
    /// for the file; where that is refused, the file is read at the next look.
    fn look(&mut self, alloc: A, _receipt: Option<Moment>) -> Option<Vec<u8, A>> {
        let mut octets = self.changed(alloc)?;
        if octets.len() > MOST_FILE_OCTETS {
            return None;
        }
        let rest = behind(str::from_utf8(&octets).ok()?, self.given)?;
        let (lines, _) = rest.rsplit_once('\n')?;
        let count = lines.split('\n').count() as u64;
        let (start, length) = (octets.len() - rest.len(), lines.len() + 1);
        octets.rotate_left(start);
        octets.truncate(length);
        self.given = self.given.saturating_add(count);
        Some(octets)
    }
}

// Returns what stands behind the first `lines` complete lines of a text, where it has as many.
fn behind(text: &str, lines: u64) -> Option<&str>
    ensures within { IfSome result (λ rest. length rest.now ≤ length text.now) }
    ensures behind { IfSome result (λ rest. (lines ≤ length (complete_lines text.now))
        × (complete_lines rest.now ≡ drop lines (complete_lines text.now))) }
    ensures fewer { IfNone result (length (complete_lines text.now) < lines) }
{
    let mut rest = text;
    for _line in 0..lines {
        rest = rest.split_once('\n')?.1;
    }
    Some(rest)
}
