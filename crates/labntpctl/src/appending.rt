//! Appends lines to the commands file, waits for the answers of labntpd to them, and follows what comes of them.

use crate::commands_file::{HeldFile, Loaded, is_at};
use crate::desk::{Clerk, Desk, MOST_REPORTED_OCTETS, RECORD_FORM, Stop};
use ntp_admin::{Command, Escaped, Status};
use ntp_clerk::{command_line, command_shown, record_line};
use ntp_host::{open_shared_file, pause};
use std::alloc::{AllocError, Global};
use std::fmt::{self, Display};
use std::fs;
use std::io::{self, ErrorKind, Read, Seek, SeekFrom, Write};

/// The milliseconds between two looks at the answers.
const LOOKED_EACH: u64 = 20;

/// How lines are appended, which answers are waited for, and how long.
#[derive(Clone, Copy)]
pub struct Manner<'a> {
    /// Whether they are only shown.
    pub dry_run: bool,
    /// The paths of the answers files, with commas between them; else that of the configuration.
    pub answers: Option<&'a str>,
    pub millis: u64,
}

/// Lines that are appended in one write, and the answers to them in the files of all processes that serve.
#[derive(Drop)]
pub struct Addition<'a> {
    clerk: &'a Clerk<'a>,
    manner: Manner<'a>,
    // All lines: the record of the order, those of names, then those of commands.
    text: String,
    /// How many lines of names there are.
    pub names: usize,
    pub commands: Vec<Command>,
    // The number of the first command's line.
    first: u64,
    // Where the commands stand, as `line 5: `; empty without a command.
    place: String,
    /// The command if there is one, else how many there are; without keys and without a line feed.
    pub shown: String,
    /// The path of the new file for a customer who gets a key.
    pub given: Option<String>,
    // The paths of the answers files, and how many octets of old answers each has.
    files: Vec<(&'a str, u64)>,
}

// Writes the record of an order of now, lines of names and the lines of commands.
fn added_text(desk: Desk<'_>, name_lines: &str, commands: &[Command]) -> Result<String, Stop> {
    let (time, user) = (desk.time(RECORD_FORM)?, desk.user()?);
    let mut text = record_line(desk.alloc(), time.as_str(), user.as_str())?;
    text.push_str(name_lines)?;
    for command in commands {
        text.push_str(command_line(desk.alloc(), command)?.as_str())?;
    }
    Ok(text)
}

// Writes where this count of commands stands.
fn place_of(alloc: Global, first: u64, count: usize) -> Result<String, AllocError> {
    let last = first.saturating_add(count as u64).saturating_sub(1);
    match count {
        0 => Ok(String::new(alloc)),
        1 => format!(in alloc; "line {first}: "),
        _ => format!(in alloc; "lines {first} to {last}: "),
    }
}

// Writes a command alone, or how many commands there are, or how many names without any.
fn shown(alloc: Global, names: usize, commands: &[Command]) -> Result<String, AllocError> {
    match commands {
        [] => format!(in alloc; "names: {names}"),
        [command] => command_shown(alloc, command),
        _ => format!(in alloc; "{} commands", commands.len()),
    }
}

/// Writes what is appended: names alone, or commands with the numbers of their lines.
impl<'a> Display for Addition<'a> {
    fn fmt<W: fmt::Write>(&self, f: &mut fmt::Formatter<W>) -> fmt::Result {
        write!(f, "{}{}", self.place.as_str(), self.shown.as_str())
    }
}

// Answers that are not `done`, with the numbers of their lines.
type BadAnswers = Vec<(u64, String)>;

impl<'a> Addition<'a> {
    /// Writes a record, lines of names and commands as the lines that follow in the commands file, once it has room for them.
    pub fn new(
        clerk: &'a Clerk<'a>,
        manner: Manner<'a>,
        loaded: &Loaded,
        name_lines: &str,
        commands: Vec<Command>,
    ) -> Result<Addition<'a>, Stop> {
        let (alloc, names) = (clerk.desk.alloc(), name_lines.lines().count());
        let first = loaded.lines.saturating_add(names as u64).saturating_add(2);
        let text = added_text(clerk.desk, name_lines, &commands)?;
        loaded.judge_room(clerk, text.len())?;
        Ok(Addition {
            clerk,
            manner,
            text,
            names,
            first,
            place: place_of(alloc, first, commands.len())?,
            shown: shown(alloc, names, &commands)?,
            commands,
            given: None,
            files: Vec::new(alloc),
        })
    }

    /// Reads the answers files before the lines are written. A file that is not there has no answer yet; one with answers to these or
    /// to later lines shows that the commands file is not the one that was read.
    pub fn read_answers(&mut self) -> Result<(), Stop> {
        let clerk = self.clerk;
        let configured = clerk.configuration.answers.as_ref();
        let paths = self.manner.answers.or(configured.map(|path| path.as_str()));
        for path in paths.into_iter().flat_map(|paths| paths.split(',')) {
            let bad = &mut Vec::new(clerk.desk.alloc());
            let (count, end) = self.answered(path, 0, u64::MAX, bad)?;
            if count > 0 {
                let why = "lines were answered that do not stand here: restart labntpd";
                return Err(clerk.refusal(why));
            }
            self.files.push((path, end))?;
        }
        Ok(())
    }

    /// Appends the lines, and prints them and their answers. Removes the customer's new file where its command is not done.
    pub fn append(&self, held: &mut HeldFile) -> Result<(), Stop> {
        let (clerk, desk) = (self.clerk, self.clerk.desk);
        if let Err(error) = held.append(self.text.as_str()) {
            let _ = self.take_back();
            return desk.at(clerk.commands(), Err(error));
        }
        let is_alone = held.has_grown_by(self.text.len());
        let is_sure = is_alone && is_at(desk.rt, &held.file, clerk.commands()).unwrap_or(false);
        let stored = held.file.sync_all();
        // Others may append while the answers are waited for.
        let _ = held.file.unlock();
        let mut has_failed = false;
        if is_sure || self.commands.is_empty() {
            tell(desk, &mut has_failed, self);
        }
        if let Some(path) = &self.given {
            tell(
                desk,
                &mut has_failed,
                format_args!("for the customer: {path}"),
            );
        }
        let followed = match is_sure {
            true => self.follow(&mut has_failed),
            false => Err(self.lost(is_alone)),
        };
        desk.at(clerk.commands(), stored)?;
        followed?;
        if has_failed {
            let _ = writeln!(desk.faults(), "write: {self}: it stands there");
            return Err(Stop::Printed(Status::IoFailed));
        }
        Ok(())
    }

    // Waits for the answers to the commands, and prints them.
    fn follow(&self, has_failed: &mut bool) -> Result<(), Stop> {
        let (desk, place) = (self.clerk.desk, self.place.as_str());
        if self.commands.is_empty() {
            return Ok(());
        }
        let mut bad = Vec::new(desk.alloc());
        if self.wait(&mut bad)? {
            return self.tell_answers(has_failed, &bad);
        }
        let lines = if self.commands.len() == 1 {
            "line"
        } else {
            "lines"
        };
        let _ = writeln!(
            desk.faults(),
            "{place}no answer; where labntpd does not run, it carries the {lines} out at its next start"
        );
        Err(Stop::Printed(Status::IoFailed))
    }

    // Waits until each file answers each command, takes what is not `done`, and returns whether that took not too long.
    fn wait(&self, bad: &mut BadAnswers) -> Result<bool, Stop> {
        if self.files.is_empty() {
            return Ok(false);
        }
        for _ in 0..self.manner.millis / LOOKED_EACH {
            if self.are_whole(bad)? {
                return Ok(true);
            }
            pause(LOOKED_EACH as i32);
        }
        self.are_whole(bad)
    }

    // Takes what is not `done`, and returns whether each file answers each command now.
    fn are_whole(&self, bad: &mut BadAnswers) -> Result<bool, Stop> {
        let wanted = self.commands.len() as u64;
        bad.clear();
        for (path, old) in self.files.iter() {
            if self.answered(path, *old, wanted, bad)?.0 < wanted {
                return Ok(false);
            }
        }
        Ok(true)
    }

    // Reads what a file answers behind `old` octets of old answers, and takes what is not `done`. Returns the count of answers to the
    // first `lines` lines from the first command's on, and the octets up to the end of the last answer.
    fn answered(
        &self,
        path: &str,
        old: u64,
        lines: u64,
        bad: &mut BadAnswers,
    ) -> Result<(u64, u64), Stop> {
        let desk = self.clerk.desk;
        let octets = match octets_behind(desk, path, old) {
            Err(error) if error.kind() == ErrorKind::NotFound => Vec::new(desk.alloc()),
            octets => desk.at(path, octets)?,
        };
        let end = octets.iter().rposition(|octet| *octet == b'\n');
        let whole = end.and_then(|end| octets.get(..=end)).unwrap_or(&[]);
        match str::from_utf8(whole) {
            Ok(text) => Ok((
                self.count(text, lines, bad)?,
                old.saturating_add(whole.len() as u64),
            )),
            Err(_) => Err(desk.refusal_at(path, "this is no UTF-8")),
        }
    }

    // Counts the answers of a text to these lines, and takes the first one to each that is not `done`.
    fn count(&self, text: &str, lines: u64, bad: &mut BadAnswers) -> Result<u64, AllocError> {
        let mut count: u64 = 0;
        for line in text.lines() {
            let (number, answer) = line.split_once(' ').unwrap_or((line, ""));
            let number = number.parse::<u64>().unwrap_or(0);
            let place = number.checked_sub(self.first);
            if place.is_none_or(|place| place >= lines) {
                continue;
            }
            count = count.saturating_add(1);
            if answer != "done" && !bad.iter().any(|other| other.0 == number) {
                let answer = String::from_str(self.clerk.desk.alloc(), answer)?;
                bad.push((number, answer))?;
            }
        }
        Ok(count)
    }

    // Prints the answers to the commands, which are `done` but for these.
    fn tell_answers(&self, has_failed: &mut bool, bad: &[(u64, String)]) -> Result<(), Stop> {
        let (desk, place) = (self.clerk.desk, self.place.as_str());
        if bad.is_empty() {
            tell(desk, has_failed, format_args!("{place}done"));
            return Ok(());
        }
        for (number, answer) in bad {
            let answer = Escaped(answer.as_str());
            let place = number.saturating_sub(self.first) as usize;
            match self.commands.get(place) {
                // A command alone was printed before.
                Some(command) if self.commands.len() > 1 => {
                    let shown = command_shown(desk.alloc(), command)?;
                    let what = format_args!("line {number}: {shown}: {answer}");
                    tell(desk, has_failed, what);
                }
                _ => tell(desk, has_failed, format_args!("line {number}: {answer}")),
            }
        }
        self.take_back()?;
        Err(Stop::Printed(Status::TextFaulty))
    }

    // Reports that the lines were appended at numbers that are not known, or to a file that labntpd may never read.
    fn lost(&self, is_alone: bool) -> Stop {
        let (why, what) = match is_alone {
            true => ("another file took its place", "appended to the old one"),
            false => (
                "somebody else wrote to the file",
                "appended at a line that is not known; look at the answers",
            ),
        };
        let (clerk, shown) = (self.clerk, self.shown.as_str());
        let why = format_args!("{why} at the same time: {shown}: {what}");
        clerk.desk.failure_at(clerk.commands(), why)
    }

    // Removes the customer's new file, if there is one, or reports why it stays.
    fn take_back(&self) -> Result<(), Stop> {
        let (desk, Some(path)) = (self.clerk.desk, &self.given) else {
            return Ok(());
        };
        match fs::remove_file(desk.rt, path.as_str()) {
            Err(error) if error.kind() == ErrorKind::NotFound => Ok(()),
            removed => desk.at(path.as_str(), removed),
        }
    }
}

// Reads the octets of an answers file behind its old ones; all where it has fewer, since it was emptied.
fn octets_behind(desk: Desk<'_>, path: &str, old: u64) -> io::Result<Vec<u8>> {
    let mut opened = open_shared_file(desk.rt, path)?;
    let is_emptied = opened.metadata()?.len() < old;
    opened.seek(SeekFrom::Start(if is_emptied { 0 } else { old }))?;
    let mut octets = Vec::new(desk.alloc());
    let most = u64::from(MOST_REPORTED_OCTETS);
    opened.take(most).read_to_end(&mut octets)?;
    Ok(octets)
}

// Prints what comes of an addition. Output that fails changes nothing of that, and a reader who goes away misses nothing.
fn tell<D: Display + Drop>(desk: Desk<'_>, has_failed: &mut bool, text: D) {
    if let Err(error) = writeln!(desk.rt.stdout(), "{text}") {
        *has_failed = *has_failed || error.kind() != ErrorKind::BrokenPipe;
    }
}
