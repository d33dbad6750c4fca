//! Changes the customers into those of a file, writes such a file, and writes the commands file anew in fewer lines.

use crate::appending::{Addition, Manner};
use crate::changing::unled;
use crate::commands_file::{HeldFile, Loaded, put_in_place, store_name, write_new};
use crate::customers::judge_daemon;
use crate::desk::{Clerk, Desk, FoundAt, Stop};
use indexmap::IndexMap;
use labntpd_files::{KeyLines, Text, WantedCustomer, WantedKey, read_wanted, write_wanted};
use ntp_admin::{Command, Escaped, Status};
use ntp_clerk::{
    ByAddress, Dotted, GivenKey, Keys, LeadFault, Seen, Terms, Wanted, command_line, commands_to,
    customers_of, ends_many, fold, have_same_keys, name_line, seen_at, seen_terms,
};
use ntp_host::MOST_COMMANDS_OCTETS;
use ntp_mac::{Algorithm, Key};
use ntp_service::Address;
use std::alloc::{AllocError, Global};
use std::fmt::Write as _;
use std::fs;
use std::io::Write as _;

/// How a file of customers is applied.
#[derive(Clone, Copy)]
pub struct Application<'a> {
    pub path: &'a str,
    /// Whether the clerk is asked first.
    pub asks: bool,
    /// Whether more than a quarter of the enrolments may end.
    pub ends_many: bool,
    pub manner: Manner<'a>,
}

/// Changes the customers into those of a file, and prints what came of it.
pub fn apply(clerk: &Clerk<'_>, application: &Application<'_>) -> Result<(), Stop> {
    let wanted = wanted_at(clerk.desk, application.path)?;
    let work = Work {
        clerk,
        application,
        wanted: &wanted,
    };
    match application.manner.dry_run {
        true => work.judge_ending(&work.changes(&clerk.load()?)?),
        false => work.make(&mut HeldFile::hold(clerk)?),
    }
}

// What is applied.
#[derive(Clone, Copy)]
struct Work<'a> {
    clerk: &'a Clerk<'a>,
    application: &'a Application<'a>,
    wanted: &'a [WantedCustomer],
}

impl<'a> Work<'a> {
    // Shows the changes, and makes them in the file that is held, if there are any, once the clerk is asked.
    fn make(&self, held: &mut HeldFile) -> Result<(), Stop> {
        let changes = self.changes(&held.loaded)?;
        if changes.shown.is_empty() {
            return Ok(());
        }
        let mut addition = self.addition(&mut held.loaded, &changes)?;
        addition.read_answers()?;
        if self.application.asks {
            let (commands, names) = (addition.commands.len(), addition.names);
            let what = format_args!("apply {commands} commands and {names} names? [y/N] ");
            self.clerk.desk.ask(what)?;
        }
        addition.append(held)
    }

    // Returns the lines that make the customers the wanted ones.
    fn addition(&self, loaded: &mut Loaded, changes: &Changes) -> Result<Addition<'a>, Stop> {
        self.judge_ending(changes)?;
        judge_daemon(self.clerk, loaded)?;
        let (commands, names) = (self.commands(loaded)?, changes.names.as_str());
        Addition::new(self.clerk, self.application.manner, loaded, names, commands)
    }

    // Finds and prints the changes.
    fn changes(&self, loaded: &Loaded) -> Result<Changes, Stop> {
        loaded.judge_room(self.clerk, 0)?;
        let changes = self.found_in(loaded)?;
        match changes.shown.as_str() {
            "" => self.clerk.desk.print("nothing to change\n")?,
            shown => self.clerk.desk.print(shown)?,
        }
        Ok(changes)
    }

    // Finds the changes: of wanted customers in their order, then the enrolments that end.
    fn found_in(&self, loaded: &Loaded) -> Result<Changes, AllocError> {
        let alloc = self.clerk.desk.alloc();
        let mut there = IndexMap::new(alloc);
        for customer in customers_of(alloc, &loaded.service)?.iter() {
            there.insert(customer.address, customer.terms)?;
        }
        let mut changes = Changes {
            shown: String::new(alloc),
            names: String::new(alloc),
            enrolled: there.len(),
            ending: 0,
        };
        changes.add_all(alloc, self.wanted, loaded, &mut there)?;
        Ok(changes)
    }

    // Refuses to end many enrolments where the clerk did not allow it.
    fn judge_ending(&self, changes: &Changes) -> Result<(), Stop> {
        let (desk, ending, enrolled) = (self.clerk.desk, changes.ending, changes.enrolled);
        if ends_many(ending, enrolled) && !self.application.ends_many {
            return Err(desk.refusal(format_args!(
                "{ending} of {enrolled} enrolments would end: --end-many is wanted"
            )));
        }
        Ok(())
    }

    // Returns the commands that make the customers the wanted ones, and gives them to the service.
    fn commands(&self, loaded: &mut Loaded) -> Result<Vec<Command>, Stop> {
        let desk = self.clerk.desk;
        let mut targets = Vec::new(desk.alloc());
        for customer in self.wanted {
            let (address, terms) = (customer.address, terms_for(customer));
            targets.push(Wanted { address, terms })?;
        }
        let commands = commands_to(desk.alloc(), &mut loaded.service, &targets);
        commands.map_err(|fault| unled(desk, fault))
    }
}

// Reads the customers of a file, or reports each fault in it.
fn wanted_at(desk: Desk<'_>, path: &str) -> Result<Vec<WantedCustomer>, Stop> {
    let text = desk.text(path, desk.octets(path, MOST_COMMANDS_OCTETS as u32)?)?;
    match read_wanted(desk.alloc(), text.as_str())? {
        Ok(wanted) => Ok(wanted.customers),
        Err(found) => {
            for fault in found.iter() {
                let _ = desk.refusal_at(path, FoundAt(fault));
            }
            Err(Stop::Printed(Status::TextFaulty))
        }
    }
}

// Returns what a wanted customer is enrolled with.
fn terms_for(customer: &WantedCustomer) -> Terms {
    let given = |WantedKey { number, key }| GivenKey { number, key };
    Terms {
        older: given(customer.older),
        newer: customer.newer.map(given),
        budget: customer.budget,
    }
}

// The changes that make the customers of a commands file the wanted ones.
#[derive(Drop)]
struct Changes {
    // A line for each change, without keys.
    shown: String,
    // The lines of the names that change.
    names: String,
    // How many are enrolled now.
    enrolled: usize,
    // How many of these are not wanted.
    ending: usize,
}

impl Changes {
    // Adds the changes that make the customers of a commands file, with these terms, the wanted ones.
    fn add_all(
        &mut self,
        alloc: Global,
        wanted: &[WantedCustomer],
        loaded: &Loaded,
        there: &mut ByAddress<Terms>,
    ) -> Result<(), AllocError> {
        for customer in wanted {
            let old_name = loaded.name(customer.address);
            let name = customer.name.as_ref();
            let name = name.map_or(old_name, |name| name.as_str());
            let before = there.swap_remove(&customer.address);
            self.add(customer, before, old_name, name)?;
            if name != old_name {
                let line = name_line(alloc, customer.address, name)?;
                self.names.push_str(line.as_str())?;
            }
        }
        self.ending = there.len();
        for address in there.keys() {
            writeln!(self.shown, "- {}", Dotted(*address))?;
        }
        Ok(())
    }

    // Adds the changes of a wanted customer, who had these terms, if it was enrolled, and the old name.
    fn add(
        &mut self,
        customer: &WantedCustomer,
        before: Option<Terms>,
        old_name: &str,
        name: &str,
    ) -> Result<(), AllocError> {
        let address = Dotted(customer.address);
        let after = terms_for(customer);
        let (seen, budget) = (seen_terms(&after), after.budget);
        let keys = Keys(seen);
        let Some(before) = before else {
            write!(self.shown, "+ {address} {keys}, budget {budget}")?;
            if !name.is_empty() {
                write!(self.shown, ", name \"{name}\"")?;
            }
            return writeln!(self.shown, "");
        };
        let (old_seen, old_budget) = (seen_terms(&before), before.budget);
        let old_keys = Keys(old_seen);
        if old_budget != budget {
            writeln!(self.shown, "~ {address} budget {old_budget} -> {budget}")?;
        }
        if (before.older, before.newer) != (after.older, after.newer) {
            let is_shown = !have_same_keys(&old_seen, &seen);
            let how = if is_shown { "" } else { ", with other octets" };
            writeln!(self.shown, "~ {address} {old_keys} -> {keys}{how}")?;
        }
        if name != old_name {
            writeln!(self.shown, "~ {address} name \"{old_name}\" -> \"{name}\"")?;
        }
        Ok(())
    }
}

/// Writes the customers of the commands file with their names into a new file, or to standard output where none is named.
pub fn export(clerk: &Clerk<'_>, path: Option<&str>, keys: KeyLines) -> Result<(), Stop> {
    let (desk, mut text) = (clerk.desk, Vec::new(clerk.desk.alloc()));
    let count = write_customers(desk, &clerk.load()?, keys, &mut text)?;
    let Some(path) = path else {
        return desk.printed(desk.rt.stdout().write_all(&text));
    };
    write_new(desk, path, &text)?;
    desk.print(format_args!("{count} customers\n"))
}

// Writes the customers of a commands file with their names in the order of their addresses, and returns how many there are.
fn write_customers(
    desk: Desk<'_>,
    loaded: &Loaded,
    keys: KeyLines,
    text: &mut Vec<u8>,
) -> Result<usize, Stop> {
    let mut customers = customers_of(desk.alloc(), &loaded.service)?;
    customers.sort_by_key(|customer| customer.address)?;
    for customer in customers.iter() {
        let name = loaded.name(customer.address);
        let wanted = wanted_customer(desk.alloc(), customer, name)?;
        desk.at("customers", write_wanted(text, &wanted, keys))?;
    }
    Ok(customers.len())
}

// Returns a customer with its name, which may be empty, as a wanted one.
fn wanted_customer(
    alloc: Global,
    there: &Wanted,
    name: &str,
) -> Result<WantedCustomer, AllocError> {
    let wanted = |GivenKey { number, key }| WantedKey { number, key };
    Ok(WantedCustomer {
        address: there.address,
        older: wanted(there.terms.older),
        newer: there.terms.newer.map(wanted),
        budget: there.terms.budget,
        name: match name {
            "" => None,
            name => Some(Text::of(alloc, name)?),
        },
    })
}

/// Writes the commands file anew in fewer lines, and keeps the old one beside it; or only prints how long it would be.
pub fn fold_commands(clerk: &Clerk<'_>, dry_run: bool) -> Result<(), Stop> {
    judge_no_link(clerk)?;
    match dry_run {
        true => fold_loaded(clerk, &clerk.load()?, true),
        false => fold_loaded(clerk, &HeldFile::hold(clerk)?.loaded, false),
    }
}

// Does so with what was read of it, and prints where the old one is kept.
fn fold_loaded(clerk: &Clerk<'_>, loaded: &Loaded, dry_run: bool) -> Result<(), Stop> {
    let (desk, path) = (clerk.desk, clerk.commands());
    match folded(clerk, loaded)? {
        Some(text) if !dry_run => {
            let kept = put_in_place(desk, path, text.as_str())?;
            desk.print(format_args!(
                "kept: {kept}\nlabntpd reads the new file at its next start, and carries out no further line before: restart labntpd\n"
            ))?;
            desk.at(path, store_name(desk.rt, path))
        }
        _ => Ok(()),
    }
}

// Checks that the path is no link: a fold would replace the link, and leave the file that it names.
fn judge_no_link(clerk: &Clerk<'_>) -> Result<(), Stop> {
    let (desk, path) = (clerk.desk, clerk.commands());
    let metadata = desk.at(path, fs::symlink_metadata(desk.rt, path))?;
    if !metadata.is_symlink() {
        return Ok(());
    }
    let file = desk.at(path, fs::canonicalize(desk.rt, path))?;
    let (file, config) = (Escaped(file.as_str()), Escaped(clerk.config));
    Err(clerk.refusal(format_args!(
        "this is a symbolic link: name the file itself, {file}, as `commands` in {config}"
    )))
}

// Returns the text of the new file, and prints how long it is; returns nothing where it would not be shorter.
fn folded(clerk: &Clerk<'_>, loaded: &Loaded) -> Result<Option<String>, Stop> {
    let desk = clerk.desk;
    if loaded.octets > MOST_COMMANDS_OCTETS {
        let path = Escaped(clerk.commands());
        desk.print(format_args!(
            "{path}: what stands behind {MOST_COMMANDS_OCTETS} octets is left out: labntpd does not read it\n"
        ))?;
    } else {
        loaded.judge_room(clerk, 0)?;
    }
    let spare = desk.random_key(Algorithm::Sha1, false)?;
    let text = folded_text(desk.alloc(), loaded, spare).map_err(|fault| unled(desk, fault))?;
    let customers = customers_of(desk.alloc(), &loaded.service)?.len();
    let (octets, before) = (text.len() as u64, loaded.octets);
    if octets >= before {
        desk.print("nothing to fold\n")?;
        return Ok(None);
    }
    desk.print(format_args!(
        "customers: {customers}\ncommands file: {octets} octets, {before} before\n"
    ))?;
    Ok(Some(text))
}

// Returns the text of a file with these customers, names and records alone. A record stands in front of all to whom it belongs.
fn folded_text(alloc: Global, loaded: &Loaded, spare: Key) -> Result<String, LeadFault> {
    let addresses = loaded.service.addresses()?;
    let is_revoked = |it: &&Address| seen_at(&loaded.service, **it) == Seen::Revoked;
    let revoked: Vec<Address> = addresses.iter().filter(is_revoked).copied().collect(alloc)?;
    let commands = fold(alloc, &loaded.service, &revoked, spare)?;
    Ok(lines_for(alloc, loaded, &commands)?)
}

// Returns the lines of commands with the names and the records of the customers.
fn lines_for(alloc: Global, loaded: &Loaded, commands: &[Command]) -> Result<String, AllocError> {
    let mut text = String::new(alloc);
    // Whose comment stands there last.
    let mut last: Option<Address> = None;
    for command in commands {
        if let Command::Enrol { address, .. } = command {
            let record = loaded.record(*address);
            if record != last.map_or("", |last| loaded.record(last)) {
                writeln!(text, "{record}")?;
            }
            last = Some(*address);
            if let Some(name) = loaded.names.get(address) {
                text.push_str(name_line(alloc, *address, name.as_str())?.as_str())?;
            }
        }
        text.push_str(command_line(alloc, command)?.as_str())?;
    }
    Ok(text)
}
