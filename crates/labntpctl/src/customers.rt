//! Reads the customers that labntpd reports, lists them, and bars changes where those of the commands file differ.

use crate::commands_file::Loaded;
use crate::desk::{Clerk, Desk, Stop, signed_date};
use indexmap::IndexMap;
use ntp_admin::{Escaped, Status, words};
use ntp_clerk::{
    ByAddress, Difference, Dotted, Seen, SeenKey, SeenTerms, differing_at, is_settled,
};
use ntp_reports::customer_line;
use ntp_service::{Address, LineOutcome, Refusal, Service};
use serde::Deserialize;
use std::alloc::{AllocError, Global};
use std::fmt::{Display, Write as _};
use std::fs;
use std::io::Write as _;

/// The heads of the columns.
const HEAD: &str = "\
ADDRESS         STATE    BUDGET LINE    NUMBER KEY      LAST SIGNED                   \
basic   interleaved rate    deny    nak     over-budget muted   NAME\n";

/// A customer, as a line of labntpd's customers file has it.
#[derive(Drop, Deserialize)]
pub struct CustomerLine<'a> {
    pub address: &'a str,
    pub state: &'a str,
    pub keys: Vec<KeyLine<'a>>,
    /// Nothing where it is revoked.
    pub budget: Option<u16>,
    /// The line of the commands file that enrolled it last.
    pub line: u64,
    pub answers: AnswerCounts,
}

/// A key of a customer.
#[derive(Drop, Deserialize)]
pub struct KeyLine<'a> {
    pub number: u16,
    pub algorithm: &'a str,
    /// How many octets it has.
    pub octets: u64,
    /// The seconds since 1970, if it has signed.
    pub last_signed: Option<&'a str>,
}

/// The counts of answers that have a column.
#[derive(Clone, Copy, Drop, Deserialize)]
pub struct AnswerCounts {
    pub basic: u64,
    pub interleaved: u64,
    pub rate: u64,
    pub deny: u64,
    pub nak: u64,
    #[serde(rename = "over-budget")]
    pub over_budget: u64,
    pub muted: u64,
}

impl<'a> CustomerLine<'a> {
    // Returns the customer's address and what it has there, if the line is one of a customer.
    fn reported(&self) -> Option<(Address, Seen)> {
        let seen = match self.state {
            "enrolled" => Seen::Enrolled(SeenTerms {
                older: self.keys.first()?.seen()?,
                newer: match self.keys.get(1) {
                    Some(key) => Some(key.seen()?),
                    None => None,
                },
                budget: self.budget?,
            }),
            "revoked" => Seen::Revoked,
            _ => return None,
        };
        Some((words::address(self.address)?, seen))
    }

    // Writes the customer, which has this line, if it is listed, and returns whether it is.
    fn write(
        &self,
        alloc: Global,
        shown: &mut String,
        line: &str,
        file: Option<&Loaded>,
        how: Listing,
    ) -> Result<bool, AllocError> {
        let address = words::address(self.address);
        if how.address.is_some() && how.address != address {
            return Ok(false);
        }
        let named = file.zip(address);
        let name = named.map_or("", |(file, address)| file.name(address));
        match how.json {
            true => write_object(alloc, shown, line, name)?,
            false => self.write_rows(alloc, shown, name)?,
        }
        Ok(true)
    }

    // Writes a row of the table for each key. A value that is too long shifts the columns behind it.
    fn write_rows(&self, alloc: Global, table: &mut String, name: &str) -> Result<(), AllocError> {
        let mut row = String::new(alloc);
        self.write_cells(alloc, &mut row)?;
        row.push_str(name)?;
        writeln!(table, "{}", row.as_str().trim_end())?;
        for key in self.keys.iter().skip(1) {
            row.clear();
            cell(&mut row, 39, "")?;
            write_key(alloc, &mut row, Some(key))?;
            writeln!(table, "{}", row.as_str().trim_end())?;
        }
        Ok(())
    }

    // Writes the cells of the first row, all but the name.
    fn write_cells(&self, alloc: Global, row: &mut String) -> Result<(), AllocError> {
        cell(row, 15, Escaped(self.address))?;
        cell(row, 8, Escaped(self.state))?;
        match self.budget {
            Some(budget) => cell(row, 6, budget)?,
            None => cell(row, 6, "-")?,
        }
        cell(row, 7, self.line)?;
        write_key(alloc, row, self.keys.first())?;
        let counts = self.answers;
        for (width, count) in [
            (7, counts.basic),
            (11, counts.interleaved),
            (7, counts.rate),
            (7, counts.deny),
            (7, counts.nak),
            (11, counts.over_budget),
            (7, counts.muted),
        ] {
            cell(row, width, count)?;
        }
        Ok(())
    }
}

impl<'a> KeyLine<'a> {
    // Returns the key, if its algorithm is one.
    fn seen(&self) -> Option<SeenKey> {
        Some(SeenKey {
            number: self.number,
            algorithm: words::algorithm(self.algorithm)?,
            octets: self.octets,
        })
    }
}

/// Which customers are listed, and how.
#[derive(Clone, Copy)]
pub struct Listing {
    /// The only customer that is listed.
    pub address: Option<Address>,
    /// Whether they are objects of JSON, and no table.
    pub json: bool,
}

// Reads a line behind `place` others, or reports that it is no line of a customer: labntpd writes printable ASCII alone.
fn customer_in<'a>(desk: Desk<'_>, place: usize, line: &'a str) -> Result<CustomerLine<'a>, Stop> {
    if !line.chars().all(|character| matches!(character, ' '..='~')) {
        return Err(no_line(desk, place));
    }
    let read = serde_json::from_str::<CustomerLine<'a>>(desk.alloc(), line);
    read.map_err(|error| match error.is_memory() {
        true => Stop::Memory,
        false => no_line(desk, place),
    })
}

/// Reads the lines of a text, or reports the first one that is no line of a customer.
pub fn customer_lines<'a>(desk: Desk<'_>, text: &'a str) -> Result<Vec<CustomerLine<'a>>, Stop> {
    let mut lines = Vec::new(desk.alloc());
    for (place, line) in text.lines().enumerate() {
        lines.push(customer_in(desk, place, line)?)?;
    }
    Ok(lines)
}

// Reports that the line at a place is none of a customer.
fn no_line(desk: Desk<'_>, place: usize) -> Stop {
    let number = (place as u64).saturating_add(1);
    desk.refusal(format_args!("customers: line {number}: an object of a customer is wanted"))
}

/// Lists labntpd's customers, and reports where the commands file has others. Without the former it lists the latter.
pub fn list(clerk: &Clerk<'_>, listing: Listing) -> Result<(), Stop> {
    clerk.renew_customers()?;
    let reported = clerk.reported(&clerk.configuration.customers)?;
    // That labntpd reads no more bars a change, but no list.
    let _ = judge_reading(clerk);
    let report = reported.as_ref().map_or("", |text| text.as_str());
    let is_named = reported.is_some() && names(clerk.desk.alloc(), report, listing.address)?;
    match is_named {
        true => list_reported(clerk, report, listing),
        false => list_file(clerk.desk, clerk.commands(), listing),
    }
}

// Returns whether a report names an address: it lacks a customer of the last seconds.
fn names(alloc: Global, report: &str, address: Option<Address>) -> Result<bool, AllocError> {
    let Some(address) = address else {
        return Ok(true);
    };
    let quoted = format!(in alloc; "\"{}\"", Dotted(address))?;
    Ok(report.contains(quoted.as_str()))
}

// Lists the customers of labntpd's report, and reports where the commands file has others.
fn list_reported(clerk: &Clerk<'_>, report: &str, listing: Listing) -> Result<(), Stop> {
    let (desk, loaded) = (clerk.desk, clerk.load());
    write(desk, report, loaded.as_ref().ok(), listing)?;
    for difference in lasting_differences(clerk, &loaded?)?.values() {
        if listing.address.unwrap_or(difference.address) == difference.address {
            let _ = write!(desk.faults(), "{difference}");
        }
    }
    Ok(())
}

/// Lists the customers of the commands file at a path.
pub fn list_file(desk: Desk<'_>, path: &str, listing: Listing) -> Result<(), Stop> {
    let loaded = Loaded::at(desk, path)?;
    let lines = lines_of(desk.alloc(), &loaded)?;
    write(desk, lines.as_str(), Some(&loaded), listing)
}

/// Prints what differs between labntpd's customers and those of the commands file, and stops the work if anything does.
pub fn compare(clerk: &Clerk<'_>) -> Result<(), Stop> {
    let desk = clerk.desk;
    let Some(path) = &clerk.configuration.customers else {
        let why = "customers: missing: there is nothing to compare";
        return Err(desk.refusal_at(clerk.config, why));
    };
    desk.at(path.as_str(), fs::metadata(desk.rt, path.as_str()))?;
    clerk.renew_customers()?;
    let differing = lasting_differences(clerk, &clerk.load()?)?;
    for difference in differing.values() {
        desk.print(*difference)?;
    }
    if differing.is_empty() {
        return Ok(());
    }
    Err(Stop::Printed(Status::TextFaulty))
}

// Prints the listed customers of a text with their names, and reports each line that is none of a customer.
fn write(desk: Desk<'_>, text: &str, file: Option<&Loaded>, how: Listing) -> Result<(), Stop> {
    let mut shown = String::new(desk.alloc());
    if !how.json {
        shown.push_str(HEAD)?;
    }
    let (mut done, mut is_there) = (Ok(()), how.address.is_none());
    for (place, line) in text.lines().enumerate() {
        match customer_in(desk, place, line) {
            Err(Stop::Memory) => return Err(Stop::Memory),
            Err(fault) => done = Err(fault),
            Ok(customer) => {
                let is_listed = customer.write(desk.alloc(), &mut shown, line, file, how)?;
                is_there = is_there || is_listed;
            }
        }
    }
    match how.address {
        Some(address) if !is_there => {
            Err(desk.refusal(format_args!("{}: no customer", Dotted(address))))
        }
        _ => desk.print(shown).and(done),
    }
}

// Writes a customer's line with its name, if it has one, as the last member.
fn write_object(alloc: Global, to: &mut String, line: &str, name: &str) -> Result<(), AllocError> {
    match line.strip_suffix("}") {
        Some(line) if !name.is_empty() => {
            let name = serde_json::to_string(alloc, &name).map_err(|_| AllocError)?;
            writeln!(to, "{line},\"name\":{name}}}")?;
        }
        _ => writeln!(to, "{line}")?,
    }
    Ok(())
}

// Returns a line for each customer of a commands file as labntpd writes it.
fn lines_of(alloc: Global, loaded: &Loaded) -> Result<String, AllocError> {
    let mut lines = String::new(alloc);
    for (address, report) in loaded.heard.counts.iter() {
        let Some(customer) = loaded.service.customer(*address) else {
            continue;
        };
        let octets = customer_line(alloc, *address, customer, report)?;
        lines.push_str(str::from_utf8(&octets).unwrap_or(""))?;
    }
    Ok(lines)
}

// Writes the cells of a key, if there is one.
fn write_key(alloc: Global, row: &mut String, key: Option<&KeyLine<'_>>) -> Result<(), AllocError> {
    let Some(key) = key else {
        cell(row, 6, "-")?;
        cell(row, 8, "-")?;
        return cell(row, 29, "-");
    };
    let word = format_args!("{} {}", Escaped(key.algorithm), key.octets);
    cell(row, 6, key.number)?;
    cell(row, 8, word)?;
    match key.last_signed {
        Some(seconds) => cell(row, 29, signed_date(alloc, seconds)?),
        None => cell(row, 29, "-"),
    }
}

// Writes a value, the spaces that its column has left, and one behind it.
fn cell<D: Display + Drop>(row: &mut String, width: usize, value: D) -> Result<(), AllocError> {
    let start = row.len();
    write!(row, "{value}")?;
    let left = width.saturating_sub(row.len().saturating_sub(start));
    write!(row, "{:left$} ", "")
}

// Returns the differences between labntpd's customers and those of the commands file, first at the addresses of the former.
fn differences(desk: Desk<'_>, text: &str, loaded: &Loaded) -> Result<ByAddress<Difference>, Stop> {
    let mut reported: ByAddress<Seen> = IndexMap::new(desk.alloc());
    for (place, line) in customer_lines(desk, text)?.iter().enumerate() {
        let (address, seen) = line.reported().ok_or_else(|| no_line(desk, place))?;
        reported.insert(address, seen)?;
    }
    for address in loaded.service.addresses()?.iter() {
        if reported.get(address).is_none() {
            reported.insert(*address, Seen::Nothing)?;
        }
    }
    let mut differences: ByAddress<Difference> = IndexMap::new(desk.alloc());
    for (address, daemon) in reported.iter() {
        if let Some(difference) = differing_at(&loaded.service, *address, *daemon) {
            differences.insert(*address, difference)?;
        }
    }
    Ok(differences)
}

/// Checks that labntpd reads the commands file, and has its customers, but for the last lines, which it may not have read yet.
pub fn judge_daemon(clerk: &Clerk<'_>, loaded: &Loaded) -> Result<(), Stop> {
    judge_reading(clerk)?;
    let differing = lasting_differences(clerk, loaded)?;
    if differing.is_empty() {
        return Ok(());
    }
    for difference in differing.values() {
        let _ = write!(clerk.desk.faults(), "{difference}");
    }
    let why = "labntpd has other customers: restart labntpd, or mend this file, and try again";
    Err(clerk.refusal(why))
}

/// Reports that labntpd no longer reads the commands file, if its statistics file says so.
pub fn judge_reading(clerk: &Clerk<'_>) -> Result<(), Stop> {
    let statistics = clerk.reported(&clerk.configuration.statistics)?;
    let changed = |line: &str| line == "labntp_commands_changed 1";
    if statistics.is_some_and(|text| text.as_str().lines().any(changed)) {
        return Err(clerk.refusal("labntpd does not read this file any more: restart labntpd"));
    }
    Ok(())
}

/// Returns the differences that labntpd's next report will not mend: its last one has what the address had behind no command.
pub fn lasting_differences(
    clerk: &Clerk<'_>,
    loaded: &Loaded,
) -> Result<ByAddress<Difference>, Stop> {
    let alloc = clerk.desk.alloc();
    // The report that is read below is no older.
    let has_all_lines = has_all_lines(clerk).unwrap_or(false);
    let Some(text) = clerk.reported(&clerk.configuration.customers)? else {
        return Ok(IndexMap::new(alloc));
    };
    let mut differences = differences(clerk.desk, text.as_str(), loaded)?;
    if !has_all_lines {
        differences.retain(|_, difference| difference.daemon != Seen::Nothing);
        remove_mended(&mut Service::new(alloc), loaded, &mut differences)?;
    }
    Ok(differences)
}

// Removes the differences whose address had behind a command what labntpd reported. The service has no customer at first.
fn remove_mended(
    service: &mut Service,
    loaded: &Loaded,
    open: &mut ByAddress<Difference>,
) -> Result<(), AllocError> {
    for line in loaded.heard.lines.iter() {
        let (LineOutcome::Done, Some(command)) = (line.outcome, line.command) else {
            continue;
        };
        if service.command(&command) == Err(Refusal::NoMemory) {
            return Err(AllocError);
        }
        let address = command.address();
        let daemon = open.get(&address).map(|open| open.daemon);
        if daemon.is_some_and(|daemon| differing_at(service, address, daemon).is_none()) {
            open.shift_remove(&address);
        }
    }
    Ok(())
}

// Returns whether labntpd's report has all lines of the commands file, if both are there.
fn has_all_lines(clerk: &Clerk<'_>) -> Option<bool> {
    let desk = clerk.desk;
    let report = desk.written_at(clerk.configuration.customers.as_ref()?.as_str())?;
    Some(is_settled(report, desk.written_at(clerk.commands())?))
}
