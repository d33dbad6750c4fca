//! Reads the words of the command line.

use crate::appending::Manner;
use crate::applying::Application;
use crate::changing::{Change, ChangeRequest, KeyRequest};
use crate::checking::Checked;
use crate::customers::Listing;
use crate::desk::ANY;
use crate::door::Place;
use clap::builder::ValueParser;
use clap::error::ErrorKind;
use clap::parser::ValueSource;
use clap::{Arg, ArgAction, ArgMatches, Command, Error};
use labntpd_files::command_line::VERSION;
use labntpd_files::{KeyLines, is_name};
use ntp_admin::words;
use ntp_mac::Algorithm;
use ntp_query::{Server, server_in};
use ntp_service::Address;
use std::alloc::{AllocError, Global};
use std::num::{self, NonZero};

/// The configuration file where none is named: that of the Debian package.
const USUAL_CONFIG: &str = "/etc/labntp/labntpd.toml";

/// The end of the help.
const AFTER_HELP: &str = "\
The customers stand in the commands file of labntpd. Each change appends lines to it, which labntpd carries out shortly after. \
No key is shown: keys stand in that file, in files for customers and in files of `export`, which their owners alone may read.

Examples:
  labntpctl enrol 192.0.2.10 --name 'PTB, clock 2' --server 198.51.100.1
  labntpctl apply customers.toml
  labntpctl door | nft -f -

Exit status: 0 done; 1 refused, or a file has a fault, or customers differ; 2 other words; 3 no answer came in time, or a file \
failed; 4 want of memory.";

/// The work that a command line asks for.
#[derive(Clone, Copy)]
pub enum Task<'a> {
    /// Finds every fault of files.
    Check(Checked<'a>),
    /// Lists customers, those of a commands file in the place of the configuration where one is named.
    List(Option<&'a str>, Listing),
    /// Prints the differences between labntpd's customers and those of the commands file.
    Compare,
    /// Explains what a datagram from an address would get, by its hexadecimal digits, or those of the capture file at a path.
    Explain(&'a str, Option<Address>),
    /// Prints the rules by which the kernel polices the door, with this rate for each customer.
    Door(Place, NonZero<u16>),
    /// Changes one customer.
    Change(ChangeRequest<'a>),
    /// Changes the customers into those of a file.
    Apply(Application<'a>),
    /// Writes the customers into a new file, or to standard output.
    Export(Option<&'a str>, KeyLines),
    /// Writes the commands file anew in fewer lines, or, where true, only prints how long it would be.
    Fold(bool),
}

/// Reads the path of the configuration file, and the work, from words. The error may be a request for the help or the version.
pub fn parse<'a>(alloc: Global, words: &'a [String]) -> Result<(&'a str, Task<'a>), Error> {
    let asked = asked_in(&command(alloc)?.try_get_matches_from(words)?);
    match asked {
        Ok(asked) => Ok(asked),
        Err(message) => { Err(command(alloc)?.error(ErrorKind::ValueValidation, message)?) }
    }
}

// Returns what the matches ask for, or what is wrong with them.
fn asked_in<'a>(matches: &ArgMatches<'a>) -> Result<(&'a str, Task<'a>), &'static str> {
    let (name, matches) = matches.subcommand().ok_or("a command is wanted")?;
    let task = match name {
        "check" => Task::Check((matches.get_str("COMMANDS"), matches.get_str("wanted"))),
        "customers" if matches.get_flag("compare") => Task::Compare,
        "customers" => listing_in(matches)?,
        "explain" => explained_in(matches)?,
        "door" => {
            let rate = number_in(matches, "rate").ok_or("--rate N is missing")?;
            Task::Door(place_in(matches)?, rate)
        }
        "apply" => Task::Apply(Application {
            path: matches.get_str("FILE").ok_or("FILE is missing")?,
            asks: !matches.get_flag("yes"),
            ends_many: matches.get_flag("end-many"),
            manner: manner_in(matches)?,
        }),
        "export" => Task::Export(matches.get_str("FILE"), keys_in(matches)?),
        "fold" => Task::Fold(matches.get_flag("dry-run")),
        _ => Task::Change(ChangeRequest {
            address: address_in(matches, "ADDRESS")?,
            change: change_in(name, matches)?,
            manner: manner_in(matches)?,
        }),
    };
    Ok((matches.get_str("config").unwrap_or(USUAL_CONFIG), task))
}

// Returns which customers are listed.
fn listing_in<'a>(matches: &ArgMatches<'a>) -> Result<Task<'a>, &'static str> {
    let word = matches.get_str("ADDRESS|COMMANDS");
    let address = word.and_then(|word| words::address(word));
    let commands = word.filter(|_| address.is_none());
    if commands.is_some() && matches.value_source("config") == Some(ValueSource::CommandLine) {
        return Err("COMMANDS stands in the place of --config");
    }
    let json = matches.get_flag("json");
    Ok(Task::List(commands, Listing { address, json }))
}

// Returns the datagrams to be explained.
fn explained_in<'a>(matches: &ArgMatches<'a>) -> Result<Task<'a>, &'static str> {
    let (digits, from) = (matches.get_str("DATAGRAM"), matches.get_str("from"));
    match (digits, from, matches.get_str("pcap")) {
        (Some(digits), Some(from), None) => {
            let wanted = "--from: an IPv4 address, as 192.0.2.1, is wanted";
            Ok(Task::Explain(digits, Some(words::address(from).ok_or(wanted)?)))
        }
        (None, None, Some(path)) => Ok(Task::Explain(path, None)),
        _ => Err("either DATAGRAM and --from ADDRESS, or --pcap FILE is wanted"),
    }
}

// Returns where the rules apply, if the words say it.
fn place_in(matches: &ArgMatches<'_>) -> Result<Place, &'static str> {
    let Some(word) = matches.get_str("address") else {
        return Ok(None);
    };
    match server_in(word) {
        Some(Server { address, port }) if address != ANY => {
            Ok(Some((address, word.contains(':').then_some(port))))
        }
        _ => Err("--address: an IPv4 address of this host, with a port or without, is wanted"),
    }
}

// Returns whether keys are written.
fn keys_in(matches: &ArgMatches<'_>) -> Result<KeyLines, &'static str> {
    match matches.get_str("FILE") {
        _ if matches.get_flag("no-keys") => Ok(KeyLines::LeftOut),
        Some(_) => Ok(KeyLines::Written),
        None => Err("FILE, a new file for the keys, or --no-keys is wanted"),
    }
}

// Returns the address of a customer under a name.
fn address_in(matches: &ArgMatches<'_>, name: &str) -> Result<Address, &'static str> {
    let address = matches.get_str(name).and_then(|word| words::address(word));
    address.ok_or("ADDRESS: an IPv4 address, as 192.0.2.1, is wanted")
}

// Returns what becomes of the customer.
fn change_in<'a>(name: &str, matches: &ArgMatches<'a>) -> Result<Change<'a>, &'static str> {
    match name {
        "enrol" => Ok(Change::Enrol {
            budget: number_in(matches, "budget").ok_or("--budget N is missing")?,
            name: match matches.get_str("name") {
                Some(name) if !is_name(name) => {
                    return Err("--name TEXT: a line of 1 to 200 octets is wanted");
                }
                name => name,
            },
            key: key_request_in(matches)?,
        }),
        "name" => match matches.get_str("NAME") {
            Some(name) if is_name(name) => Ok(Change::Name(name)),
            _ => Err("NAME: a line of 1 to 200 octets is wanted"),
        },
        "move" => Ok(Change::Move(address_in(matches, "NEW")?)),
        "rollover" => Ok(Change::Rollover(key_request_in(matches)?)),
        "budget" => Ok(Change::Budget(number_in(matches, "N").ok_or("N is missing")?)),
        "retire" => Ok(Change::Retire {
            number: number_in(matches, "number"),
            asks: !matches.get_flag("yes"),
        }),
        _ => Ok(Change::Revoke),
    }
}

// Returns the key that a customer gets.
fn key_request_in<'a>(matches: &ArgMatches<'a>) -> Result<KeyRequest<'a>, &'static str> {
    let wanted = "--server: an IPv4 address, with a port or without, is wanted";
    let server = matches.get_str("server");
    let server = server.map(|word| server_in(word).ok_or(wanted));
    let (key_file, number) = (matches.get_str("key-file"), number_in(matches, "number"));
    if key_file.is_none() && number.is_some() {
        return Err("--number N is wanted with --key-file alone");
    }
    Ok(KeyRequest {
        algorithm: match matches.get_str("algorithm") {
            Some("md5") => Algorithm::Md5,
            _ => Algorithm::Sha1,
        },
        is_text: matches.get_flag("text-key"),
        key_file,
        number,
        output: matches.get_str("output"),
        server: server.transpose()?,
    })
}

// Returns the key number, the budget or the rate under a name.
fn number_in(matches: &ArgMatches<'_>, name: &str) -> Option<NonZero<u16>> {
    NonZero::<u16>::new(matches.get_one::<u16>(name)?)
}

// Returns how lines are appended.
fn manner_in<'a>(matches: &ArgMatches<'a>) -> Result<Manner<'a>, &'static str> {
    let seconds = matches.get_one::<f64>("wait").unwrap_or(0.0);
    if !(seconds >= 0.0 && seconds <= 60.0) {
        return Err("--wait S: 0 to 60 seconds are wanted");
    }
    Ok(Manner {
        dry_run: matches.get_flag("dry-run"),
        answers: matches.get_str("answers"),
        millis: num::saturating_f64_to_u64((seconds * 1_000.0).round()),
    })
}

// The commands that append lines; all but the last change one customer.
const APPENDING: &str = "enrol rollover retire revoke move budget name apply";

// Rows of texts.
macro_rules! rows {
    ($($($text:expr),+;)*) => { &[$(($($text),+)),*] };
}

// The commands, and what each does.
const COMMANDS: &[(&str, &str)] = rows! {
    "customers", "Lists the customers, and what differs at labntpd";
    "enrol", "Enrols an address with a key";
    "rollover", "Gives an address a key beside the one that it has";
    "retire", "Says when keys were last used, asks, and takes one of two";
    "revoke", "Ends an enrolment: the address is refused from now on";
    "move", "Gives a customer another address";
    "budget", "Gives an address another budget";
    "name", "Gives an address another name";
    "apply", "Makes the customers those of a file, once it has asked";
    "export", "Writes the customers as a file in TOML for `apply`";
    "fold", "Shortens the commands file, and keeps the old one";
    "check", "Prints each fault of the files, and what is hardly meant";
    "explain", "Says what a datagram would get, and why";
    "door", "Prints rules of nftables for what customers send";
};

// The arguments: the commands that take it, all where none is named; its usage; and its help.
const ARGUMENTS: &[(&str, &str, &str)] = rows! {
    "", "--config FILE", "The configuration file of labntpd";
    "customers", "[ADDRESS|COMMANDS]", "One customer; or a commands file, for --config";
    "customers", "--json", "Prints an object of JSON for each customer";
    "customers", "--compare", "Prints what differs at labntpd and in the file";
    "check", "[COMMANDS]", "A commands file, in the place of the configuration";
    "check", "--wanted FILE", "A file for `apply`, which is checked too";
    "explain", "[DATAGRAM]", "The octets of the UDP payload, in hexadecimal digits";
    "explain", "--from ADDRESS", "The IPv4 address from which it came";
    "explain", "--pcap FILE", "A pcap file: each UDP datagram to the port";
    "door", "--address ADDRESS[:PORT]", "[default: where labntpd listens, or `served_as`]";
    "door", "--rate N", "A customer's datagrams in a second; at once, twice as many";
    APPENDING, "--dry-run", "Only shows what would be done, without keys";
    APPENDING, "--answers FILE[,FILE..]", "The answers files of all processes";
    APPENDING, "--wait S", "How many seconds answers are waited for, 0 to 60";
    "apply", "<FILE>", "The file of customers in TOML, as `export` writes it";
    "apply", "--yes", "Does not ask first";
    "apply", "--end-many", "Lets more than a quarter of the enrolments end";
    "enrol rollover retire revoke move budget name", "<ADDRESS>", "The customer's IPv4 address";
    "enrol rollover", "--algorithm ALGORITHM", "What a random key is for";
    "enrol rollover", "--text-key", "Makes a key of 20 characters, for devices that take text";
    "enrol rollover", "--key-file FILE", "Takes the key from a key file of chrony";
    "enrol rollover", "--number N", "The key's number in that file";
    "enrol rollover", "--output FILE", "[default: ADDRESS-NUMBER.keys]";
    "enrol rollover", "--server ADDRESS[:PORT]", "[default: what the configuration says]";
    "enrol", "--budget N", "Signed queries that get the time in 64 seconds";
    "enrol", "--name TEXT", "Whose address it is: a comment of the commands file";
    "retire", "--number N", "The key's number [default: the older one's]";
    "retire", "--yes", "Does not ask first, nor look whether the other key is in use";
    "move", "<NEW>", "The IPv4 address in the place of ADDRESS";
    "budget", "<N>", "Signed queries that get the time in 64 seconds";
    "name", "<NAME>", "Whose address it is";
    "fold", "--dry-run", "Prints only how long the new file would be";
    "export", "[FILE]", "A new file, which its owner alone may read";
    "export", "--no-keys", "Leaves the keys out; without FILE, prints the rest";
};

// Builds the command line with its help.
fn command<'a>(alloc: Global) -> Result<Command<'a>, AllocError> {
    let mut command = Command::new(alloc, "labntpctl")
        .version(VERSION)
        .about("Keeps the customers of labntpd")
        .after_help(AFTER_HELP)
        .subcommand_required(true)
        .disable_help_subcommand(true);
    for (name, about) in COMMANDS {
        command = command.subcommand(subcommand(alloc, name, about)?)?;
    }
    Ok(command)
}

// Builds a command with its arguments.
fn subcommand<'a>(alloc: Global, name: &'a str, about: &'a str) -> Result<Command<'a>, AllocError> {
    let mut command = Command::new(alloc, name).about(about);
    for (commands, usage, help) in ARGUMENTS {
        if commands.is_empty() || commands.split(' ').any(|it| it == name) {
            command = command.arg(argument(alloc, usage, help)?)?;
        }
    }
    Ok(command)
}

// Builds an argument with this usage: an option, or a value that is wanted, or one that may be left out.
fn argument<'a>(alloc: Global, usage: &'a str, help: &'a str) -> Result<Arg<'a>, AllocError> {
    let (option, value) = usage.split_once(' ').unwrap_or((usage, ""));
    let name = option.trim_matches(['-', '<', '>', '[', ']']);
    let (parser, default, others) = limits_of(name);
    let is_wanted = option.starts_with('<');
    let arg = Arg::new(alloc, name).help(help).required(is_wanted);
    let arg = match (option.starts_with("--"), value) {
        (true, "") => arg.long(name).action(ArgAction::SetTrue),
        (true, value) => arg.long(name).value_name(value).value_parser(parser),
        (false, _) => arg.value_name(name).value_parser(parser),
    };
    arg.default_values(default).conflicts_with_all(others)
}

// Names or values of arguments.
type Texts = &'static [&'static str];

// Returns what values of an argument have to be, the value where it is left out, and the arguments that are not used with it.
fn limits_of(name: &str) -> (ValueParser<'static>, Texts, Texts) {
    let (text, number) = (ValueParser::String, ValueParser::Unsigned(1, 65_535));
    match name {
        "config" => (text, &[USUAL_CONFIG], &[]),
        "algorithm" => (ValueParser::Names(&["md5", "sha1"]), &["sha1"], &[]),
        "wait" => (ValueParser::Float, &["5"], &[]),
        "rate" => (number, &["200"], &[]),
        "budget" => (number, &["10"], &[]),
        "number" | "N" => (number, &[], &[]),
        "compare" => (text, &[], &["json", "ADDRESS|COMMANDS"]),
        "COMMANDS" => (text, &[], &["config"]),
        "key-file" => (text, &[], &["algorithm", "text-key"]),
        _ => (text, &[], &[]),
    }
}
