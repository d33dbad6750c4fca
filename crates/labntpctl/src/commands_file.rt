//! Reads the commands file, carries out its lines, and holds it, so that one clerk at a time changes it. Writes new files, and puts them
//! in the place of others.

use crate::desk::{Clerk, Desk, Stop};
use indexmap::IndexMap;
use labntpd_files::is_name;
use labntpd_start::directory_of;
use ntp_admin::{Command, Escaped, apply_lines};
use ntp_clerk::{ByAddress, name_in};
use ntp_host::{MOST_COMMANDS_OCTETS, not_regular, pause, read_regular_file};
use ntp_reports::CustomerCounts;
use ntp_service::{Address, LineOutcome, Observer, Refusal, Service, TurnOutcome};
use std::alloc::{AllocError, Global};
use std::fs::{self, File, OpenOptions, Permissions, TryLockError};
use std::io::{self, ErrorKind, Read, Write};
use std::os::unix::fs::{MetadataExt, OpenOptionsExt, PermissionsExt, fchown};

/// What the complete lines of a commands file have come to.
#[derive(Drop)]
pub struct Loaded {
    /// The customers.
    pub service: Service,
    /// What became of each line.
    pub heard: Heard,
    /// The last name of each address that has one.
    pub names: ByAddress<String>,
    /// The last comment or empty line, other than a name, in front of each address's last command that was done.
    pub records: ByAddress<String>,
    /// How many lines there are.
    pub lines: u64,
    /// How many octets the file has.
    pub octets: u64,
    /// Whether the file ends with these lines.
    pub is_ended: bool,
}

impl Loaded {
    /// Reads the commands file at a path.
    pub fn at(desk: Desk<'_>, path: &str) -> Result<Loaded, Stop> {
        let octets = read_regular_file(desk.rt, desk.alloc(), path, MOST_COMMANDS_OCTETS as u32);
        Ok(Loaded::of(desk.alloc(), &desk.at(path, octets)?)?)
    }

    /// Carries out the complete lines of these octets, as labntpd does.
    pub fn of(alloc: Global, octets: &[u8]) -> Result<Loaded, AllocError> {
        let whole = complete_lines(octets);
        let mut loaded = Loaded {
            service: Service::new(alloc),
            heard: Heard {
                counts: CustomerCounts::new(alloc),
                lines: Vec::new(alloc),
                has_missed: false,
            },
            names: IndexMap::new(alloc),
            records: IndexMap::new(alloc),
            lines: 0,
            octets: octets.len() as u64,
            is_ended: whole.len() == octets.len(),
        };
        loaded.carry_out(alloc, whole)?;
        Ok(loaded)
    }

    // Carries out complete lines, and notes what they come to.
    fn carry_out(&mut self, alloc: Global, lines: &[u8]) -> Result<(), AllocError> {
        self.lines = apply_lines(&mut self.service, lines, 0, &mut self.heard);
        if self.heard.has_missed || self.heard.counts.has_missed() {
            return Err(AllocError);
        }
        self.note_comments(alloc, lines)
    }

    // Takes from these lines, by address, the last names, and the comments in front of the last commands that were done.
    fn note_comments(&mut self, alloc: Global, octets: &[u8]) -> Result<(), AllocError> {
        let (mut record, mut taken): (&[u8], usize) = (&[], 0);
        for (place, line) in octets.split(|octet| *octet == b'\n').enumerate() {
            let number = (place as u64).saturating_add(1);
            let heard = self.heard.lines.get(taken);
            if let Some(heard) = heard.filter(|heard| heard.number == number) {
                taken = taken.saturating_add(1);
                if let (Some(command), LineOutcome::Done) = (heard.command, heard.outcome) {
                    let record = String::from_str(alloc, str::from_utf8(record).unwrap_or(""))?;
                    self.records.insert(command.address(), record)?;
                }
                continue;
            }
            let text = str::from_utf8(line).unwrap_or("");
            match name_in(text).filter(|named| is_name(named.1)) {
                Some((address, name)) => {
                    self.names.insert(address, String::from_str(alloc, name)?)?;
                }
                None => record = line,
            }
        }
        Ok(())
    }

    /// Returns the name of an address, or an empty text.
    pub fn name(&self, address: Address) -> &str {
        self.names.get(&address).map_or("", |name| name.as_str())
    }

    /// Returns the comment in front of an address's last command, or an empty text.
    pub fn record(&self, address: Address) -> &str {
        self.records.get(&address).map_or("", |it| it.as_str())
    }

    /// Checks that a line feed ends the commands file, and that `more` octets fit into it.
    pub fn judge_room(&self, clerk: &Clerk<'_>, more: usize) -> Result<(), Stop> {
        if self.octets.saturating_add(more as u64) > MOST_COMMANDS_OCTETS {
            return Err(clerk.refusal(format_args!(
                "at most {MOST_COMMANDS_OCTETS} octets are wanted: labntpctl fold shortens it"
            )));
        }
        if !self.is_ended {
            let line = self.lines.saturating_add(1);
            let why = format_args!("line {line}: a line feed at its end is wanted");
            return Err(clerk.refusal(why));
        }
        Ok(())
    }
}

/// Returns the complete lines of a commands file, as far as labntpd reads it.
pub fn complete_lines(octets: &[u8]) -> &[u8] {
    let most = MOST_COMMANDS_OCTETS as usize;
    let read = octets.get(..most).unwrap_or(octets);
    match read.iter().rposition(|octet| *octet == b'\n') {
        Some(end) => read.get(..=end).unwrap_or(read),
        None => &[],
    }
}

/// A line of a commands file that was taken.
#[derive(Clone, Copy)]
pub struct HeardLine {
    pub number: u64,
    /// Its command, if it is one.
    pub command: Option<Command>,
    pub outcome: LineOutcome,
}

/// Notes what becomes of lines.
#[derive(Drop)]
pub struct Heard {
    /// The numbers of customers' keys, and the lines that enrolled them.
    pub counts: CustomerCounts,
    pub lines: Vec<HeardLine>,
    has_missed: bool,
}

impl Observer for Heard {
    fn line(&mut self, number: u64, command: Option<&Command>, outcome: LineOutcome) {
        self.counts.line(number, command, outcome);
        let line = HeardLine {
            number,
            command: command.copied(),
            outcome,
        };
        if outcome == LineOutcome::Refused(Refusal::NoMemory) || self.lines.push(line).is_err() {
            self.has_missed = true;
        }
    }

    fn turn(&mut self, _outcome: &TurnOutcome) {}
}

/// The commands file, locked for other clerks.
#[derive(Drop)]
pub struct HeldFile {
    /// The file; unlocking or closing it ends the lock.
    pub file: File,
    /// What it had when it was read.
    pub loaded: Loaded,
}

impl HeldFile {
    /// Waits until nobody else holds the commands file, a regular one, for ten seconds at most. Then holds and reads it.
    pub fn hold(clerk: &Clerk<'_>) -> Result<HeldFile, Stop> {
        let (desk, path) = (clerk.desk, clerk.commands());
        let file = match held_file(desk.rt, path) {
            Err(error) if error.kind() == ErrorKind::WouldBlock => return Err(held(desk, path)),
            file => desk.at(path, file)?,
        };
        let mut octets = Vec::new(desk.alloc());
        let most = MOST_COMMANDS_OCTETS.saturating_add(1);
        desk.at(path, (&file).take(most).read_to_end(&mut octets))?;
        let loaded = Loaded::of(desk.alloc(), &octets)?;
        Ok(HeldFile { file, loaded })
    }

    /// Appends text. Where that fails, leaves the comments with which the text begins, as far as they were written: labntpd reads no
    /// more of a file with fewer lines than it read. A file that is as long as before gets its time back.
    pub fn append(&mut self, text: &str) -> io::Result<()> {
        let modified = self.file.metadata()?.modified()?;
        let mut written: usize = 0;
        let done = write_counted(&mut self.file, text.as_bytes(), &mut written);
        if done.is_err() && self.has_grown_by(written) {
            let kept = comment_octets(text.as_bytes().get(..written).unwrap_or(&[])) as u64;
            let length = self.loaded.octets.saturating_add(kept);
            if self.file.set_len(length).is_ok() && kept == 0 {
                let _ = self.file.set_modified(modified);
            }
        }
        done
    }

    /// Returns whether the file has this count of octets more than when it was read.
    pub fn has_grown_by(&self, octets: usize) -> bool {
        let length = self.loaded.octets.saturating_add(octets as u64);
        let there = self.file.metadata();
        there.is_ok_and(|there| there.len() == length)
    }
}

// Returns how many octets the complete comments have with which these octets begin.
fn comment_octets(octets: &[u8]) -> usize {
    let lines = octets.split_inclusive(|octet| *octet == b'\n');
    let comments = lines.take_while(|line| line.starts_with(b"#") && line.ends_with(b"\n"));
    comments.fold(0, |count: usize, line| count.saturating_add(line.len()))
}

// Opens the file at a path, and holds it. Asks for the lock for ten seconds at most.
fn held_file(rt: &HostRuntime, path: &str) -> io::Result<File> {
    for _ in 0..500 {
        // A pipe that is opened for reading and writing is opened at once, whoever holds its other end (fifo(7)).
        let file = OpenOptions::new().read(true).append(true).open(rt, path)?;
        if is_held(rt, &file, path)? {
            return Ok(file);
        }
        drop(file);
        pause(20);
    }
    Err(io::Error::from(ErrorKind::WouldBlock))
}

// Holds a regular file, and returns whether it is held and stands at a path.
fn is_held(rt: &HostRuntime, file: &File, path: &str) -> io::Result<bool> {
    if !file.metadata()?.is_file() {
        return Err(not_regular());
    }
    match file.try_lock() {
        // Another file may have taken its place before it was held.
        Ok(()) => is_at(rt, file, path),
        Err(TryLockError::WouldBlock) => Ok(false),
        Err(TryLockError::Error(error)) => Err(error),
    }
}

// Reports that somebody else holds the file at a path.
fn held(desk: Desk<'_>, path: &str) -> Stop {
    let holder = holder(desk, path);
    let holder = holder.as_ref().map_or("", |holder| holder.as_str());
    let why = format_args!("somebody else has held it for ten seconds{holder}");
    desk.failure_at(path, why)
}

// Returns which process holds the file at a path, by what the system says (proc(5)), if that can be read: its lines are
// NUMBER: FLOCK ADVISORY WRITE PROCESS DEVICE:INODE FIRST LAST.
fn holder(desk: Desk<'_>, path: &str) -> Option<String> {
    let inode = format!(in desk.alloc(); ":{} ", fs::metadata(desk.rt, path).ok()?.ino()).ok()?;
    let locks = system_text(desk, "/proc/locks")?;
    let mut lines = locks.as_str().lines();
    let line = lines.find(|line| line.contains(inode.as_str()))?;
    let process = line.split_ascii_whitespace().nth(4)?;
    let name = format!(in desk.alloc(); "/proc/{process}/comm").ok()?;
    let program = system_text(desk, name.as_str())?;
    let program = Escaped(program.as_str().trim_end());
    format!(in desk.alloc(); ": process {process}, {program}").ok()
}

// Reads what the system says at a path.
fn system_text(desk: Desk<'_>, path: &str) -> Option<String> {
    let octets = read_regular_file(desk.rt, desk.alloc(), path, MOST_COMMANDS_OCTETS as u32);
    String::from_utf8(octets.ok()?).ok()
}

// Writes octets, and counts those that were written.
fn write_counted(file: &mut File, octets: &[u8], written: &mut usize) -> io::Result<()> {
    for _ in 0..u64::MAX {
        let left = octets.get(*written..).unwrap_or(&[]);
        if left.is_empty() {
            break;
        }
        match file.write(left) {
            Ok(0) => return Err(io::Error::from(ErrorKind::WriteZero)),
            Ok(count) => *written = written.saturating_add(count),
            Err(error) if error.kind() == ErrorKind::Interrupted => {}
            Err(error) => return Err(error),
        }
    }
    Ok(())
}

/// Returns whether this is the file at a path.
pub fn is_at(rt: &HostRuntime, file: &File, path: &str) -> io::Result<bool> {
    let (ours, there) = (file.metadata()?, fs::metadata(rt, path)?);
    Ok(ours.dev() == there.dev() && ours.ino() == there.ino())
}

/// Writes a new file that its owner alone may read, and has the system store it with its name. Leaves none where that fails.
pub fn write_new(desk: Desk<'_>, path: &str, octets: &[u8]) -> Result<(), Stop> {
    let rt = desk.rt;
    let mut file = match new_for_owner(rt, path) {
        Err(error) if error.kind() == ErrorKind::AlreadyExists => {
            let why = "a file is there: name a new one, or move it away";
            return Err(desk.failure_at(path, why));
        }
        file => desk.at(path, file)?,
    };
    let done = write_stored(&mut file, octets).and_then(|()| store_name(rt, path));
    desk.at(path, or_removed(rt, path, done))
}

/// Replaces the file at a path by this text with its owner, group and mode. Keeps it under the name that is returned.
pub fn put_in_place(desk: Desk<'_>, path: &str, text: &str) -> Result<String, Stop> {
    let (rt, alloc) = (desk.rt, desk.alloc());
    let new = format!(in alloc; "{path}.new")?;
    let new = new.as_str();
    let time = desk.time("%Y%m%dT%H%M%SZ")?;
    let kept = format!(in alloc; "{path}.{time}")?;
    desk.at(new, write_like(rt, new, text, path))?;
    let linked = fs::hard_link(rt, path, kept.as_str());
    desk.at(kept.as_str(), or_removed(rt, new, linked))?;
    let renamed = or_removed(rt, new, fs::rename(rt, new, path));
    if renamed.is_err() {
        keep_no_more(rt, path, kept.as_str());
    }
    desk.at(path, renamed)?;
    Ok(kept)
}

/// Has the system store which file stands at a path.
pub fn store_name(rt: &HostRuntime, path: &str) -> io::Result<()> {
    fs::open(rt, directory_of(path))?.sync_all()
}

// Writes a new file at a path with the owner, the group and the mode of another one. Removes what an earlier run left there.
fn write_like(rt: &HostRuntime, path: &str, text: &str, like: &str) -> io::Result<()> {
    match fs::remove_file(rt, path) {
        Err(error) if error.kind() != ErrorKind::NotFound => return Err(error),
        _ => {}
    }
    let old = fs::metadata(rt, like)?;
    let mut file = new_for_owner(rt, path)?;
    let done = fchown(&file, Some(old.uid()), Some(old.gid()))
        .and_then(|()| file.set_permissions(Permissions::from_mode(old.mode() & 0o7777)))
        .and_then(|()| write_stored(&mut file, text.as_bytes()));
    or_removed(rt, path, done)
}

/// Opens a new file that its owner alone may read, where there is none.
pub fn new_for_owner(rt: &HostRuntime, path: &str) -> io::Result<File> {
    OpenOptions::new()
        .write(true)
        .create_new(true)
        .mode(0o600)
        .open(rt, path)
}

// Writes octets into a file, and has the system store them.
fn write_stored(file: &mut File, octets: &[u8]) -> io::Result<()> {
    file.write_all(octets)?;
    file.sync_all()
}

// Returns what came of the work on a new file, and removes the file where that failed.
fn or_removed(rt: &HostRuntime, path: &str, done: io::Result<()>) -> io::Result<()> {
    if done.is_err() {
        let _ = fs::remove_file(rt, path);
    }
    done
}

// Removes the other name of a file that still has its own: a call that failed may have moved it all the same.
fn keep_no_more(rt: &HostRuntime, path: &str, kept: &str) {
    if let (Ok(there), Ok(other)) = (fs::metadata(rt, path), fs::metadata(rt, kept)) {
        if there.dev() == other.dev() && there.ino() == other.ino() {
            let _ = fs::remove_file(rt, kept);
        }
    }
}
