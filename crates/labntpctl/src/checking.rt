//! Finds every fault of the files that labntpd would serve by, and prints a line for each.

use crate::commands_file::{HeardLine, Loaded, complete_lines};
use crate::desk::{Desk, FoundAt, Stop};
use labntpd_files::{
    ConfigurationFault, ShownWord, address_warning, budget_warning, configuration_faults,
    fault_meaning, faulty_place, is_fixed, key_in_file, key_warning, key_wrong, path_at,
    read_configuration, read_wanted, refusal_meaning, word_at,
};
use labntpd_start::{
    KEY_LINE_WANTED, NamedFiles, SeveralAddresses, readers_of, small_text, tell_places,
};
use ntp_admin::{Command, Escaped, LineFault, Status, failed_status, line_without_text};
use ntp_clerk::{budget_named, customers_of, key_named};
use ntp_host::{MOST_COMMANDS_OCTETS, is_nearly_full, read_regular_file, write_nearly_full};
use ntp_mac::Algorithm;
use ntp_service::LineOutcome;
use std::fmt::{self, Display};
use std::io::{BufWriter, Stdout, Write};
use toml::Table;

/// The paths of a commands file in the place of the configuration, and of a file of wanted customers.
pub type Checked<'a> = (Option<&'a str>, Option<&'a str>);

/// Reports every fault of the configuration and its files, or of a commands file in their place, and of a file of wanted customers.
pub fn check(desk: Desk<'_>, config: &str, checked: Checked<'_>) -> Result<(), Stop> {
    let mut report = Report {
        desk,
        out: desk.buffered_output()?,
        status: Status::Done,
    };
    let done = report.check_each(config, checked);
    desk.printed(report.out.flush())?;
    done?;
    match report.status {
        Status::Done => Ok(()),
        status => Err(Stop::Printed(status)),
    }
}

// What is printed, and the exit status that it comes to.
#[derive(Drop)]
struct Report<'a> {
    desk: Desk<'a>,
    out: BufWriter<Stdout>,
    // The greatest exit status of what was printed.
    status: Status,
}

impl<'a> Report<'a> {
    // Takes the exit status of a fault that was printed.
    fn take(&mut self, status: Status) {
        self.status = self.status.max(status);
    }

    // Prints a fault of a file.
    fn fault<P: Display + Drop, D: Display + Drop>(&mut self, place: P, what: D) {
        let _ = writeln!(self.out, "{place}: {what}");
        self.take(Status::TextFaulty);
    }

    // Prints what is hardly meant in a file.
    fn warning<P: Display + Drop, D: Display + Drop>(&mut self, place: P, what: D) {
        let _ = writeln!(self.out, "warning: {place}: {what}");
    }

    // Reads the regular file at a path, which has keys. Warns if others may read it, or reports why it cannot be read.
    fn octets(&mut self, path: &str) -> Option<Vec<u8>> {
        let (desk, most) = (self.desk, MOST_COMMANDS_OCTETS as u32);
        let octets = match read_regular_file(desk.rt, desk.alloc(), path, most) {
            Ok(octets) => octets,
            Err(error) => {
                let status = failed_status(path, &error, &mut self.out);
                self.take(status);
                return None;
            }
        };
        self.warn_of_readers(path);
        if octets.len() as u64 > MOST_COMMANDS_OCTETS {
            let what = format_args!("at most {most} octets are wanted");
            self.fault(Escaped(path), what);
        }
        Some(octets)
    }

    // Reads the text of a small file at a path, or reports why it cannot be read.
    fn small_text(&mut self, path: &str) -> Option<String> {
        let text = small_text(self.desk.rt, self.desk.alloc(), path, &mut self.out);
        text.map_err(|status| self.take(status)).ok()
    }

    // Warns if others may read the file at a path.
    fn warn_of_readers(&mut self, path: &str) {
        if let Some(readers) = readers_of(self.desk.rt, path) {
            self.warning(Escaped(path), readers);
        }
    }

    // Reports every fault of each file.
    fn check_each(&mut self, config: &str, checked: Checked<'_>) -> Result<(), Stop> {
        let (commands, wanted) = checked;
        let configured = match commands {
            Some(_) => None,
            None => self.check_configuration(config)?,
        };
        let commands = commands.or(configured.as_ref().map(|path| path.as_str()));
        let customers = commands.map_or(Ok(0), |path| check_commands(self, path))?;
        let wanted_customers = wanted.map_or(Ok(0), |path| self.check_wanted(path))?;
        if self.status == Status::Done {
            let _ = writeln!(self.out, "ok: {customers} customers");
            if let Some(path) = wanted {
                let _ = writeln!(self.out, "{}: {wanted_customers} customers", Escaped(path));
            }
        }
        Ok(())
    }

    // Reports every fault of a file of wanted customers, and returns how many it has.
    fn check_wanted(&mut self, path: &str) -> Result<usize, Stop> {
        let Some(octets) = self.octets(path) else {
            return Ok(0);
        };
        let Ok(text) = str::from_utf8(&octets) else {
            let line = line_without_text(&octets);
            self.fault(Line(path, line), "this is no UTF-8");
            return Ok(0);
        };
        match read_wanted(self.desk.alloc(), text)? {
            Ok(wanted) => {
                for warning in wanted.warnings.iter() {
                    self.warning(Escaped(path), FoundAt(warning));
                }
                Ok(wanted.customers.len())
            }
            Err(found) => {
                for fault in found.iter() {
                    self.fault(Escaped(path), FoundAt(fault));
                }
                Ok(0)
            }
        }
    }

    // Reports every fault of the configuration file, and of the places that it names. Returns the path of the commands file.
    fn check_configuration(&mut self, path: &str) -> Result<Option<String>, Stop> {
        let Some(text) = self.small_text(path) else {
            return Ok(None);
        };
        self.check_settings(path, text.as_str())?;
        match toml::table_from_str(self.desk.alloc(), text.as_str()) {
            Ok(document) => self.check_places(named_files(path, &document)),
            Err(_) => Ok(None),
        }
    }

    // Does so with the places.
    fn check_places(&mut self, named: NamedFiles<'_>) -> Result<Option<String>, Stop> {
        let (rt, alloc) = (self.desk.rt, self.desk.alloc());
        if tell_places(rt, alloc, named, usize::MAX, &mut self.out)? > 0 {
            self.take(Status::TextFaulty);
        }
        if let Some(key_file) = named.key_file {
            self.check_clock_key(key_file);
        }
        let commands = named.commands.map(|path| String::from_str(alloc, path));
        Ok(commands.transpose()?)
    }

    // Reports every fault of a configuration, or warns of 0.0.0.0 where the host has several addresses and it names none for customers.
    fn check_settings(&mut self, path: &str, text: &str) -> Result<(), Stop> {
        let (rt, alloc) = (self.desk.rt, self.desk.alloc());
        let read = read_configuration(alloc, text);
        let served = read.map(|configuration| (configuration.listen, configuration.served_as));
        match served {
            Ok((listen, served_as)) => {
                let several = SeveralAddresses::configured(rt, alloc, listen);
                if let (None, Some(several)) = (served_as, several) {
                    self.warning(Escaped(path), several);
                }
            }
            Err(ConfigurationFault::NoMemory) => return Err(Stop::Memory),
            Err(_) => {
                self.take(Status::TextFaulty);
                for fault in configuration_faults(alloc, text)?.iter() {
                    self.fault(Escaped(path), FoundAt(fault));
                }
            }
        }
        Ok(())
    }

    // Reports what is wrong with the file of the clock's key.
    fn check_clock_key(&mut self, path: &str) {
        let Some(text) = self.small_text(path) else {
            return;
        };
        let text = text.as_str();
        // The algorithm says nothing about the digits.
        if key_in_file(text, Algorithm::Sha1).is_none() {
            let (line, others) = text.split_once('\n').unwrap_or((text, ""));
            let octets = others.len();
            match key_wrong(line) {
                Some(wrong) => {
                    self.fault(Line(path, 1), format_args!("{KEY_LINE_WANTED}; {wrong}"));
                }
                None => {
                    let what = format_args!("{KEY_LINE_WANTED}; {octets} octets stand behind it");
                    self.fault(Line(path, 2), what);
                }
            }
        }
        self.warn_of_readers(path);
    }

    // Reports what became of a line with this text; an empty one where it is not UTF-8.
    fn check_line(&mut self, place: Line<'_>, heard: &HeardLine, line: &str) {
        match (heard.outcome, &heard.command) {
            (LineOutcome::Faulty(fault), _) => self.faulty(place, line, fault),
            (LineOutcome::Refused(refusal), _) => {
                let (word, meaning) = (refusal.word(), refusal_meaning(refusal));
                self.fault(place, format_args!("refused {word}: {meaning}"));
            }
            (LineOutcome::Done, Some(command)) => self.warn(place, command),
            (LineOutcome::Done, None) => {}
        }
    }

    // Reports a line that is no command.
    fn faulty(&mut self, place: Line<'_>, line: &str, fault: LineFault) {
        let (word, meaning) = (fault.word(), fault_meaning(fault));
        let first = line.split_once(' ').map_or(line, |(first, _)| first);
        let placed = faulty_place(first, fault).and_then(|place| word_at(line, place));
        let at = format_args!("{place}: faulty {word}");
        if let Some((column, there)) = placed {
            let at = format_args!("{place}: column {column}: faulty {word}");
            match key_wrong(there) {
                Some(why) if fault == LineFault::KeyText => {
                    self.fault(at, format_args!("{meaning}; {why}"));
                }
                _ => self.fault(at, format_args!("{meaning}; {}", ShownWord(there))),
            }
        } else if matches!(fault, LineFault::LineLong | LineFault::NotUtf8) {
            self.fault(at, meaning);
        } else {
            let count = line.split(' ').count();
            self.fault(at, format_args!("{meaning}; {count} words stand there"));
        }
    }

    // Warns of what is hardly meant in a command that was carried out.
    fn warn(&mut self, place: Line<'_>, command: &Command) {
        let address = match command {
            Command::Enrol { address, .. } => address_warning(*address),
            _ => None,
        };
        let key = key_named(command).and_then(|key| key_warning(&key));
        let budget = budget_named(command).and_then(|budget| budget_warning(budget.get()));
        for warning in [address, key, budget].into_iter().flatten() {
            self.warning(place, warning);
        }
    }
}

// Returns the files that a document names.
fn named_files<'a>(path: &'a str, document: &'a Table) -> NamedFiles<'a> {
    let clock = document.get("clock").and_then(|clock| clock.as_table());
    let followed = clock.filter(|clock| !is_fixed(clock));
    NamedFiles {
        configuration: path,
        commands: path_at(document, "commands"),
        key_file: followed.and_then(|clock| path_at(clock, "key_file")),
        answers: path_at(document, "answers"),
        statistics: path_at(document, "statistics"),
        customers: path_at(document, "customers"),
    }
}

// Reports every fault of the commands file at a path, and returns how many customers it leaves enrolled.
fn check_commands(report: &mut Report<'_>, path: &str) -> Result<usize, Stop> {
    let Some(octets) = report.octets(path) else {
        return Ok(0);
    };
    let count = octets.len() as u64;
    if is_nearly_full(count) {
        let _ = write!(report.out, "warning: {}: ", Escaped(path));
        write_nearly_full(&mut report.out, count);
        let _ = writeln!(report.out, "");
    }
    let loaded = Loaded::of(report.desk.alloc(), &octets)?;
    check_lines(report, path, &octets, &loaded);
    Ok(customers_of(report.desk.alloc(), &loaded.service)?.len())
}

// Reports what became of the lines of the commands file at a path, which has these octets.
fn check_lines(report: &mut Report<'_>, path: &str, octets: &[u8], loaded: &Loaded) {
    let mut lines = complete_lines(octets).split(|octet| *octet == b'\n');
    let mut last = 0;
    for heard in loaded.heard.lines.iter() {
        // Lines that are passed over are not heard of.
        let passed_over = heard.number.saturating_sub(last).saturating_sub(1);
        let line = lines.nth(passed_over as usize).unwrap_or(&[]);
        last = heard.number;
        report.check_line(Line(path, last), heard, str::from_utf8(line).unwrap_or(""));
    }
    if !loaded.is_ended && loaded.octets <= MOST_COMMANDS_OCTETS {
        let line = Line(path, loaded.lines.saturating_add(1));
        report.fault(line, "a line feed at its end is wanted");
    }
}

// A line of the file at a path.
#[derive(Clone, Copy)]
struct Line<'a>(&'a str, u64);

impl<'a> Display for Line<'a> {
    fn fmt<W: fmt::Write>(&self, f: &mut fmt::Formatter<W>) -> fmt::Result {
        write!(f, "{}: line {}", Escaped(self.0), self.1)
    }
}
