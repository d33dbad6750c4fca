//! The words of the command line.

use clap::builder::ValueParser;
use clap::error::ErrorKind;
use clap::{Arg, ArgAction, ArgMatches, Command, Error, arg};
use ntp_query::{Limits, host_in};
use std::alloc::{AllocError, Global};
use std::net::Ipv4Addr;
use std::num::{self, NonZero};

/// The program's version.
const VERSION: &str = "0.2.0";

/// How many nanoseconds a second has.
const SECOND_NANOS: f64 = 1_000_000_000.0;

/// What stands at the end of the help.
const AFTER_HELP: &str = "\
Each query has a line: how it was answered, the offset of the server's clock from this host's, the delay, and what the server \
tells of its clock. No clock is set, and no key is shown. The key file is chrony's: lines NUMBER [MD5|SHA1] [ASCII:|HEX:]KEY. \
Without a key the time is unauthenticated. Stamps have no era: an offset of more than 34 years may be one that differs by 136 years.

With --max-.. or --warn-.. it is a check for monitoring, with one line (with --json its objects).

Examples:
  labntp-query --key-file keys --number 7 192.0.2.1
  labntp-query --key-file keys --number 7 --count 4 --json ntp.example:20123
  labntp-query --key-file keys --number 7 --max-offset 0.1 --warn-offset 0.01 192.0.2.1

Exit status: 0 a query gave a sample; 1 none did; 2 other words; 3 a word is no text, or the key file, the server's name, the \
socket or a write failed; 4 want of memory.
Of a check: 0 well; 1 a warning; 2 critical; 3 unknown: other words, or anything failed.";

/// What the words of a command line ask for. Times are in nanoseconds.
#[derive(Clone, Copy)]
pub struct Asked<'a> {
    /// The server's address or name.
    pub host: &'a str,
    /// Its UDP port.
    pub port: u16,
    /// The word that names both.
    pub server_word: &'a str,
    /// The IPv4 address that requests are sent from.
    pub source: &'a str,
    /// The path of the key file and the number of the key; without these it asks unsigned.
    pub key: Option<(&'a str, NonZero<u16>)>,
    /// How many queries there are.
    pub count: u32,
    /// How long it waits before the next query, in nanoseconds.
    pub interval: u64,
    /// How long it waits for the replies to one, in nanoseconds.
    pub timeout: u64,
    /// Whether objects of JSON are printed.
    pub json: bool,
    /// Whether it is a check by limits.
    pub is_check: bool,
    /// What is critical.
    pub most: Limits,
    /// What is a warning.
    pub warn: Limits,
}

/// What the words ask for; the first is the program's name. Else the error that tells the user why: its kind may be a request for
/// the help or the version, or memory may have run out.
pub fn parse<'a>(alloc: Global, words: &'a [String]) -> Result<Asked<'a>, Error> {
    let matches = command(alloc)?.try_get_matches_from(words)?;
    match asked_in(&matches) {
        Ok(asked) => Ok(asked),
        Err(message) => { Err(command(alloc)?.error(ErrorKind::ValueValidation, message)?) }
    }
}

// What the matches ask for; else what is wrong with them.
fn asked_in<'a>(matches: &ArgMatches<'a>) -> Result<Asked<'a>, &'static str> {
    let missing = "HOST[:PORT] is missing";
    let wanted = "HOST[:PORT]: an IPv4 address or a name, with a port or without, is wanted";
    let server_word = matches.get_str("HOST[:PORT]").ok_or(missing)?;
    let (host, port) = host_in(server_word).ok_or(wanted)?;
    let source = matches.get_str("source").unwrap_or("0.0.0.0");
    if source.parse::<Ipv4Addr>().is_err() {
        return Err("--source ADDRESS: an IPv4 address is wanted");
    }
    let file = matches.get_str("key-file");
    let number = matches.get_one::<u16>("number");
    let key = match (file, number.and_then(NonZero::<u16>::new)) {
        (Some(file), Some(number)) => Some((file, number)),
        (None, None) => None,
        _ => return Err("--key-file FILE and --number N: both are wanted, or neither"),
    };
    let warnings = ["warn-offset", "warn-stratum", "warn-root-distance"];
    let most = limits(matches, ["max-offset", "max-stratum", "max-root-distance"])?;
    let warn = limits(matches, warnings)?;
    let is_limited = |it: Limits| it.offset.or(it.stratum).or(it.root_distance).is_some();
    Ok(Asked {
        host,
        port,
        server_word,
        source,
        key,
        count: matches.get_one::<u32>("count").unwrap_or(1),
        interval: nanos_at(matches, "interval", 100_000_000, 3_600_000_000_000)
            .ok_or("--interval S: 0.1 to 3600 seconds are wanted")?
            .unwrap_or(2_000_000_000),
        timeout: nanos_at(matches, "timeout", 10_000_000, 60_000_000_000)
            .ok_or("--timeout S: 0.01 to 60 seconds are wanted")?
            .unwrap_or(5_000_000_000),
        json: matches.get_flag("json"),
        is_check: is_limited(most) || is_limited(warn),
        most,
        warn,
    })
}

// The limits behind these names.
fn limits(matches: &ArgMatches<'_>, names: [&str; 3]) -> Result<Limits, &'static str> {
    let [offset, stratum, root_distance] = names;
    let wanted = "--max-.. S and --warn-.. S: 0 to 1000000 seconds are wanted";
    Ok(Limits {
        offset: nanos_at(matches, offset, 0, 1_000_000_000_000_000).ok_or(wanted)?,
        stratum: matches.get_one::<u64>(stratum),
        root_distance: nanos_at(matches, root_distance, 0, 1_000_000_000_000_000).ok_or(wanted)?,
    })
}

// The seconds behind a name in nanoseconds, or that the words lack the name; nothing where they are out of their range.
fn nanos_at(matches: &ArgMatches<'_>, name: &str, least: u64, most: u64) -> Option<Option<u64>> {
    let Some(seconds) = matches.get_one::<f64>(name) else {
        return Some(None);
    };
    let nanos = num::saturating_f64_to_u64((seconds * SECOND_NANOS).round());
    (seconds >= 0.0 && least <= nanos && nanos <= most).then_some(Some(nanos))
}

// The command line, with its help.
fn command<'a>(alloc: Global) -> Result<Command<'a>, AllocError> {
    let mut command = Command::new(alloc, "labntp-query")
        .version(VERSION)
        .about("Asks an NTP server for the time, and tells what came of it")
        .after_help(AFTER_HELP);
    let file = ("FILE", ValueParser::String);
    let address = ("ADDRESS", ValueParser::String);
    let time = ("S", ValueParser::Float);
    let number = ("N", ValueParser::unsigned(1, 65_535));
    let count = ("K", ValueParser::unsigned(1, 1_000));
    let stratum = ("N", ValueParser::unsigned(0, 16));
    for (name, (shown, parser), help) in [
        ("key-file", file, "The key file [default: it asks unsigned]"),
        ("number", number, "The number of the key"),
        ("source", address, "The IPv4 address that it asks from"),
        ("count", count, "How many queries [default: 1]"),
        ("interval", time, "Wait before the next query [default: 2]"),
        ("timeout", time, "Wait for the replies to each [default: 5]"),
        ("max-offset", time, "Critical: a greater offset"),
        ("max-stratum", stratum, "Critical: a greater stratum"),
        ("max-root-distance", time, "Critical: a greater distance"),
        ("warn-offset", time, "A warning: a greater offset"),
        ("warn-stratum", stratum, "A warning: a greater stratum"),
        ("warn-root-distance", time, "A warning: a greater distance"),
    ] {
        let arg = Arg::new(alloc, name).long(name).value_name(shown);
        let arg = arg.action(ArgAction::Set).value_parser(parser);
        command = command.arg(arg.help(help))?;
    }
    let json = arg!(in alloc; --json "Prints an object of JSON for each query");
    let host =
        arg!(in alloc; <"HOST[:PORT]"> "Its IPv4 address or name; port 123 where none is given");
    command.arg(json)?.arg(host)
}
