//! Changes one customer, and writes the file for one who gets a key.

use crate::appending::{Addition, Manner};
use crate::commands_file::{HeldFile, Loaded, write_new};
use crate::customers::{customer_lines, judge_daemon};
use crate::desk::{Clerk, Desk, Named, SIGNED_FORM, Stop, date, signed_date, whole_seconds};
use labntpd_files::refusal_meaning;
use labntpd_start::SeveralAddresses;
use ntp_admin::{Command, Escaped, words};
use ntp_clerk::{
    Dotted, GivenKey, Grant, Keys, LeadFault, Seen, commands_to_move, customer_text,
    is_read_two_ways, key_named, may_retire, name_line, number_for_a_key, number_to_retire,
    rollover, seen_at, terms_of,
};
use ntp_mac::{Algorithm, Key};
use ntp_query::{KeyFileFault, KeyLineFault, Server, key_in_text, spaced};
use ntp_service::{Address, LineOutcome, Refusal};
use std::alloc::{AllocError, Global};
use std::fmt::Write as _;
use std::io::Write as _;
use std::num::NonZero;

/// A change that is asked for.
#[derive(Clone, Copy)]
pub struct ChangeRequest<'a> {
    pub address: Address,
    pub change: Change<'a>,
    pub manner: Manner<'a>,
}

/// What becomes of a customer.
#[derive(Clone, Copy)]
pub enum Change<'a> {
    /// Enrols it with a key.
    Enrol {
        /// The signed queries that get the time in a window.
        budget: NonZero<u16>,
        /// Its name, if it gets one.
        name: Option<&'a str>,
        key: KeyRequest<'a>,
    },
    /// Ends its enrolment.
    Revoke,
    /// Gives it this budget.
    Budget(NonZero<u16>),
    /// Gives it a key beside the one that it has.
    Rollover(KeyRequest<'a>),
    /// Gives it this name.
    Name(&'a str),
    /// Takes the key of this number away; the older one where no number is named.
    Retire {
        number: Option<NonZero<u16>>,
        /// Whether it asks the clerk first.
        asks: bool,
    },
    /// Gives its keys, its budget and its name to this address in its place.
    Move(Address),
}

/// The key that a customer gets, and the file that it gets with it.
#[derive(Clone, Copy)]
pub struct KeyRequest<'a> {
    /// What a random key is for, and whether it has characters alone.
    pub algorithm: Algorithm,
    pub is_text: bool,
    /// The path of a key file of chrony that has the key, and its number there; the only one where none is named.
    pub key_file: Option<&'a str>,
    pub number: Option<NonZero<u16>>,
    /// The path of the customer's new file, if it is named.
    pub output: Option<&'a str>,
    /// The server that the customer asks, if it is named.
    pub server: Option<Server>,
}

/// Makes a change, and prints what came of it.
pub fn make_change(clerk: &Clerk<'_>, request: &ChangeRequest<'_>) -> Result<(), Stop> {
    if request.manner.dry_run {
        let addition = request.addition(clerk, &mut clerk.load()?)?;
        return clerk.desk.print(format_args!("{addition}\n"));
    }
    let request = request.confirmed(clerk)?;
    request.make(clerk, &mut HeldFile::hold(clerk)?)
}

impl<'a> ChangeRequest<'a> {
    // Makes the change in the file that is held, once labntpd has what that came to.
    fn make(&self, clerk: &Clerk<'_>, held: &mut HeldFile) -> Result<(), Stop> {
        judge_daemon(clerk, &held.loaded)?;
        let mut addition = self.addition(clerk, &mut held.loaded)?;
        addition.read_answers()?;
        addition.given = self.give(clerk, addition.commands.first())?;
        addition.append(held)
    }

    // Returns the change once the clerk confirms it, with the number of a key that is retired. Others may append meanwhile.
    fn confirmed(&self, clerk: &Clerk<'_>) -> Result<ChangeRequest<'a>, Stop> {
        match self.change {
            Change::Retire { asks: true, .. } => self.confirmed_retire(clerk, &mut clerk.load()?),
            _ => Ok(*self),
        }
    }

    // Does so where a key is retired, and the clerk is asked.
    fn confirmed_retire(&self, clerk: &Clerk<'_>, loaded: &mut Loaded) -> Result<Self, Stop> {
        let number = match self.addition(clerk, loaded)?.commands.first() {
            Some(Command::Retire { number, .. }) => *number,
            _ => return Ok(*self),
        };
        ask_first(
            clerk,
            Named(self.address, loaded.name(self.address)),
            number,
        )?;
        let change = Change::Retire {
            number: Some(number),
            asks: false,
        };
        Ok(ChangeRequest { change, ..*self })
    }

    // Returns the lines for a change, once labntpd will do it and the commands file has room. Changes the customers in `loaded`.
    fn addition(&self, clerk: &'a Clerk<'a>, loaded: &mut Loaded) -> Result<Addition<'a>, Stop> {
        let alloc = clerk.desk.alloc();
        loaded.judge_room(clerk, 0)?;
        let commands = self.commands(clerk.desk, loaded)?;
        let names = self.name_lines(alloc, loaded)?;
        let mut addition = Addition::new(clerk, self.manner, loaded, names.as_str(), commands)?;
        if let Change::Move(to) = self.change {
            let (from, to) = (Dotted(self.address), Dotted(to));
            addition.shown = format!(in alloc;
                "{from} becomes {to}: its counts and saved exchanges end"
            )?;
        }
        Ok(addition)
    }

    // Returns the line of the name that an address gets, if it gets one.
    fn name_lines(&self, alloc: Global, loaded: &Loaded) -> Result<String, AllocError> {
        let (named, name) = match self.change {
            Change::Enrol { name, .. } => (self.address, name.unwrap_or("")),
            Change::Name(name) => (self.address, name),
            Change::Move(to) => (to, loaded.name(self.address)),
            _ => (self.address, ""),
        };
        match name {
            "" => Ok(String::new(alloc)),
            name => name_line(alloc, named, name),
        }
    }

    // Returns the commands for a change, once the customers in `loaded` are changed by them.
    fn commands(&self, desk: Desk<'_>, loaded: &mut Loaded) -> Result<Vec<Command>, Stop> {
        if let Change::Move(to) = self.change {
            let led = commands_to_move(desk.alloc(), &mut loaded.service, self.address, to);
            return led.map_err(|fault| unled(desk, fault));
        }
        let Some(command) = self.command(desk, loaded)? else {
            return Ok(Vec::new(desk.alloc()));
        };
        let done = loaded.service.command(&command);
        let there = seen_at(&loaded.service, self.address);
        done.map_err(|refusal| refused(desk, refusal, there))?;
        Ok(vec![in desk.alloc(); command]?)
    }

    // Returns the command for a change that is one; nothing for the name of an address that was enrolled.
    fn command(&self, desk: Desk<'_>, loaded: &Loaded) -> Result<Option<Command>, Stop> {
        let address = self.address;
        let customer = loaded.service.customer(address);
        let stranger = || refused(desk, Refusal::NotEnrolled, Seen::Nothing);
        Ok(Some(match self.change {
            Change::Enrol { budget, key, .. } => {
                let GivenKey { number, key } = key_for(desk, &key, loaded)?;
                Command::Enrol {
                    address,
                    number,
                    key,
                    budget,
                }
            }
            Change::Rollover(key) => rollover(address, &key_for(desk, &key, loaded)?),
            Change::Retire { number, .. } => {
                let terms = customer.and_then(|customer| terms_of(customer));
                let number = number_to_retire(&terms, number).ok_or_else(stranger)?;
                Command::Retire { address, number }
            }
            Change::Budget(budget) => Command::Budget { address, budget },
            Change::Name(_) if customer.is_none() => return Err(stranger()),
            Change::Name(_) | Change::Move(_) => return Ok(None),
            Change::Revoke => Command::Revoke { address },
        }))
    }

    // Writes the new file for a customer who gets a key by this command, and returns its path.
    fn give(&self, clerk: &Clerk<'_>, command: Option<&Command>) -> Result<Option<String>, Stop> {
        let (Change::Enrol { key: wanted, .. } | Change::Rollover(wanted)) = self.change else {
            return Ok(None);
        };
        let given = command.and_then(|it| it.number_wanted().zip(key_named(it)));
        let Some((number, key)) = given else {
            return Ok(None);
        };
        let (desk, alloc, customer) = (clerk.desk, clerk.desk.alloc(), self.address);
        let grant = Grant {
            customer,
            server: server_for(clerk, wanted.server),
            number,
            key,
        };
        let text = customer_text(alloc, &grant)?;
        let path = match wanted.output {
            Some(path) => String::from_str(alloc, path)?,
            None => format!(in alloc; "{}-{number}.keys", Dotted(customer))?,
        };
        write_new(desk, path.as_str(), text.as_bytes())?;
        Ok(Some(path))
    }
}

// Returns the server that a customer asks, if it is known, or warns that the host has several addresses.
fn server_for(clerk: &Clerk<'_>, named: Option<Server>) -> Option<Server> {
    let (desk, server) = (clerk.desk, named.or(clerk.server()));
    let listen = clerk.configuration.listen;
    let several = SeveralAddresses::configured(desk.rt, desk.alloc(), listen);
    if let (None, Some(several)) = (server, several) {
        let _ = writeln!(
            desk.faults(),
            "warning: {}: {several}",
            Escaped(clerk.config)
        );
    }
    server
}

// Asks whether a customer's key is to be retired, once its other key is known to be in use.
fn ask_first(clerk: &Clerk<'_>, customer: Named<'_>, number: NonZero<u16>) -> Result<(), Stop> {
    let (desk, mut said) = (clerk.desk, String::new(clerk.desk.alloc()));
    if !write_uses(clerk, customer.0, number, &mut said)? {
        let why = "no other key was used, or the count is younger than a day: --yes is wanted";
        return Err(desk.refusal(format_args!("{customer}: {said}: {why}")));
    }
    desk.ask(format_args!("{customer}: {said}; retire key {number}? [y/N] "))
}

// Says when each key of an address was last used, and returns whether that is ground to retire this one.
fn write_uses(
    clerk: &Clerk<'_>,
    address: Address,
    number: NonZero<u16>,
    said: &mut String,
) -> Result<bool, Stop> {
    clerk.renew_customers()?;
    let used = used_keys(clerk, address, said)?;
    let begun = start_of_counts(clerk)?;
    let (desk, customers) = (clerk.desk, clerk.configuration.customers.as_ref());
    let written = customers.and_then(|path| desk.written_at(path.as_str()));
    let date_of = |time: Option<u64>| time.and_then(|time| date(desk.alloc(), time, SIGNED_FORM));
    match (date_of(begun), date_of(written)) {
        (Some(begun), Some(written)) => write!(said, "counted from {begun} to {written}")?,
        _ => write!(said, "counted since a time that is not known")?,
    }
    let begun = begun.unwrap_or(u64::MAX);
    let counted = written.unwrap_or(0).saturating_sub(begun);
    Ok(may_retire(number, &used, counted))
}

// Says when each key of an address was last used, and returns the numbers of those that were.
fn used_keys(clerk: &Clerk<'_>, address: Address, said: &mut String) -> Result<Vec<u16>, Stop> {
    let text = clerk.reported(&clerk.configuration.customers)?;
    let lines = customer_lines(clerk.desk, text.as_ref().map_or("", |text| text.as_str()))?;
    let mut used = Vec::new(clerk.desk.alloc());
    let customer = lines
        .iter()
        .filter(|line| words::address(line.address) == Some(address));
    for key in customer.flat_map(|customer| customer.keys.iter()) {
        let number = key.number;
        match key.last_signed {
            Some(seconds) => {
                let date = signed_date(clerk.desk.alloc(), seconds)?;
                write!(said, "key {number} last used {date}, ")?;
                used.push(number)?;
            }
            None => write!(said, "key {number} not used, ")?,
        }
    }
    Ok(used)
}

// Returns since when labntpd counts, in seconds since 1970, if its statistics file says it.
fn start_of_counts(clerk: &Clerk<'_>) -> Result<Option<u64>, Stop> {
    let statistics = clerk.reported(&clerk.configuration.statistics)?;
    let mut values = statistics.as_ref().map_or("", |text| text.as_str()).lines();
    let begun = values.find_map(|line| line.strip_prefix("labntp_start_time_seconds "));
    Ok(begun.and_then(|seconds| whole_seconds(seconds)))
}

/// Reports why no commands were found.
pub fn unled(desk: Desk<'_>, fault: LeadFault) -> Stop {
    match fault {
        LeadFault::NoMemory => Stop::Memory,
        LeadFault::Refused(refusal) => refused(desk, refusal, Seen::Nothing),
        _ => desk.refusal("no commands lead to these customers: nothing was changed"),
    }
}

// Reports why a command is refused for an address that has this.
fn refused(desk: Desk<'_>, refusal: Refusal, there: Seen) -> Stop {
    let (word, meaning) = (refusal.word(), refusal_meaning(refusal));
    match (refusal, there) {
        (Refusal::NoMemory, _) => Stop::Memory,
        (Refusal::NotHeld, Seen::Enrolled(terms)) => {
            let keys = Keys(terms);
            desk.refusal(format_args!("refused {word}: {meaning}, but {keys}"))
        }
        _ => desk.refusal(format_args!("refused {word}: {meaning}")),
    }
}

// Returns the key that a customer gets, with its number: that of a file, or a random one under the next free number.
fn key_for(desk: Desk<'_>, wanted: &KeyRequest<'_>, loaded: &Loaded) -> Result<GivenKey, Stop> {
    if let Some(path) = wanted.key_file {
        return key_in_file(desk, path, wanted.number);
    }
    let number = free_number(desk.alloc(), loaded)?;
    Ok(GivenKey {
        number: number.ok_or_else(|| desk.refusal("every key number is held"))?,
        key: desk.random_key(wanted.algorithm, wanted.is_text)?,
    })
}

// Reads the key with a number, or the only one, from a key file in the form of chrony.
fn key_in_file(desk: Desk<'_>, path: &str, number: Option<NonZero<u16>>) -> Result<GivenKey, Stop> {
    let octets = spaced(desk.alloc(), &desk.octets(path, 65_536)?)?;
    let text = desk.text(path, octets)?;
    let number = match number {
        Some(number) => number,
        None => only_number(desk, path, text.as_str())?,
    };
    let key = key_under(desk, path, text.as_str(), number)?;
    Ok(GivenKey { number, key })
}

// Returns the key with a number in the text of a key file, or reports what is wrong with it.
fn key_under(desk: Desk<'_>, path: &str, text: &str, number: NonZero<u16>) -> Result<Key, Stop> {
    match key_in_text(text, number.get()) {
        Ok(key) if is_read_two_ways(key.octets()) => {
            let why = "HEX: is wanted in front of more than 20 digits";
            Err(desk.refusal_at(path, format_args!("key {number}: {why}")))
        }
        Ok(key) => Ok(key),
        Err(KeyFileFault::Missing) => {
            Err(desk.refusal_at(path, format_args!("there is no key {number}")))
        }
        Err(KeyFileFault::Line { line, fault }) => {
            let wanted = match fault {
                KeyLineFault::Words => "NUMBER [MD5|SHA1] [ASCII:|HEX:]KEY is wanted",
                KeyLineFault::Algorithm => "a key for MD5 or SHA1 is wanted",
                KeyLineFault::Key => "a key of 1 to 32 octets is wanted, behind HEX: in digits",
            };
            Err(desk.refusal_at(path, format_args!("line {line}: {wanted}")))
        }
    }
}

// Returns the only number of a key in the text of a key file.
fn only_number(desk: Desk<'_>, path: &str, text: &str) -> Result<NonZero<u16>, Stop> {
    let first = |line: &str| words::number(line.split_ascii_whitespace().next()?);
    let mut said = String::from_str(desk.alloc(), "there are keys")?;
    let mut numbers: Vec<NonZero<u16>> = Vec::new(desk.alloc());
    for number in text.lines().filter_map(first) {
        if !numbers.contains(&number) {
            numbers.push(number)?;
            write!(said, " {number},")?;
        }
    }
    match numbers.as_slice() {
        [] => Err(desk.refusal_at(path, "there is no key")),
        [number] => Ok(*number),
        _ => {
            let said = said.as_str().trim_end_matches(',');
            Err(desk.refusal_at(path, format_args!("{said}: --number N is wanted")))
        }
    }
}

// Returns the next free key number.
fn free_number(alloc: Global, loaded: &Loaded) -> Result<Option<NonZero<u16>>, AllocError> {
    let mut used = Vec::new(alloc);
    for line in loaded.heard.lines.iter() {
        if let (Some(command), LineOutcome::Done) = (line.command, line.outcome) {
            used.extend(command.number_wanted().map(|number| number.get()))?;
        }
    }
    Ok(number_for_a_key(&loaded.service, &used))
}
