//! Gives a clerk the host, the configuration of labntpd, and ways to ask, to print, and to show names, dates and faults.

use crate::commands_file::{Loaded, new_for_owner};
use jiff::Timestamp;
use labntpd_files::{Configuration, Endpoint, Found, Listen, Text, is_name};
use labntpd_start::{StartLines, configuration_at, start_lines};
use ntp_admin::{Escaped, Status, failed_status, memory_status, write_status};
use ntp_clerk::{Dotted, may_be_renewed};
use ntp_host::{pause, read_regular_file, read_shared_file};
use ntp_mac::{Algorithm, Key};
use ntp_query::{NTP_PORT, Server};
use ntp_service::Address;
use std::alloc::{AllocError, AllocFailed, Global};
use std::fmt::{self, Display};
use std::io::{self, BufRead, BufReader, BufWriter, ErrorKind, Read, Stderr, Stdout, Write};
use std::os::unix::fs::MetadataExt;
use std::random::RandomSource;
use std::time::SystemTime;
use std::{env, fs};

/// The most octets of a file in which labntpd reports, and of a capture file.
pub const MOST_REPORTED_OCTETS: u32 = 268_435_456;

/// The address that stands for all addresses of a host.
pub const ANY: Address = Address([0, 0, 0, 0]);

/// The characters of a key that is text, one for each value of six bits.
const CHARACTERS: &[u8; 64] = b"ABCDEFGHIJKLMNOPQRSTUVWXYZabcdefghijklmnopqrstuvwxyz0123456789_-";

/// The form of dates in tables.
pub const SIGNED_FORM: &str = "%a, %d %b %Y %H:%M:%S GMT";

/// The form of the times of records.
pub const RECORD_FORM: &str = "%Y-%m-%dT%H:%M:%SZ";

/// The reason why the work stops before it is done.
#[derive(Clone, Copy)]
pub enum Stop {
    /// Memory ran out.
    Memory,
    /// The reason was printed. The exit status.
    Printed(Status),
}

impl From<Status> for Stop {
    fn from(status: Status) -> Stop {
        Stop::Printed(status)
    }
}

impl From<AllocError> for Stop {
    fn from(_error: AllocError) -> Stop {
        Stop::Memory
    }
}

impl<T: Drop> From<AllocFailed<T>> for Stop {
    fn from(_failed: AllocFailed<T>) -> Stop {
        Stop::Memory
    }
}

/// The host. Results go to standard output, and each fault to standard error in a line.
#[derive(Clone, Copy)]
pub struct Desk<'a> {
    pub rt: &'a HostRuntime,
}

impl<'a> Desk<'a> {
    /// Returns the allocator.
    pub fn alloc(self) -> Global {
        self.rt.alloc()
    }

    /// Returns where faults are printed.
    pub fn faults(self) -> StartLines<Stderr> {
        start_lines(self.rt)
    }

    /// Returns standard output with a buffer.
    pub fn buffered_output(self) -> Result<BufWriter<Stdout>, Stop> {
        let out = BufWriter::new(self.alloc(), self.rt.stdout());
        self.at("standard output", out)
    }

    /// Returns the time, in seconds since 1970.
    pub fn now(self) -> Option<u64> {
        seconds_of(SystemTime::now(self.rt).ok()?)
    }

    /// Returns the time in a form of strftime(3); `no-date` where the clock shows none from 1970 to 9999.
    pub fn time(self, form: &'static str) -> Result<String, AllocError> {
        match self.now().and_then(|now| date(self.alloc(), now, form)) {
            Some(date) => Ok(date),
            None => format!(in self.alloc(); "no-date"),
        }
    }

    /// Returns when the file at a path was last written, in seconds since 1970, if it is there.
    pub fn written_at(self, path: &str) -> Option<u64> {
        seconds_of(fs::metadata(self.rt, path).ok()?.modified().ok()?)
    }

    /// Returns the login name of the clerk, or the number of the process's user where no name is known (proc(5)).
    pub fn user(self) -> Result<String, Stop> {
        for variable in ["SUDO_USER", "USER"] {
            match env::var(self.rt, variable) {
                Ok(name) if is_name(name.as_str()) => return Ok(name),
                _ => {}
            }
        }
        let own = self.at("/proc/self", fs::metadata(self.rt, "/proc/self"))?;
        Ok(format!(in self.alloc(); "{}", own.uid())?)
    }

    /// Returns a key of 20 random octets: 160 random bits, or 120 where each is one of `CHARACTERS`.
    pub fn random_key(self, algorithm: Algorithm, is_text: bool) -> Result<Key, Stop> {
        let mut octets = [0; 20];
        self.at("random octets", self.rt.fill_bytes(&mut octets))?;
        if is_text {
            octets = octets.map(|octet| CHARACTERS[usize::from(octet % 64)]);
        }
        Ok(Key::new(algorithm, &octets).unwrap())
    }

    /// Returns the exit status of work, and reports want of memory.
    pub fn status(self, done: Result<(), Stop>) -> Status {
        match done {
            Ok(()) => Status::Done,
            Err(Stop::Memory) => memory_status(&mut self.faults()),
            Err(Stop::Printed(status)) => status,
        }
    }

    /// Prints to standard output.
    pub fn print<D: Display + Drop>(self, text: D) -> Result<(), Stop> {
        self.printed(write!(self.rt.stdout(), "{text}"))
    }

    /// Returns what came of a write to standard output, or reports that it failed.
    pub fn printed(self, done: io::Result<()>) -> Result<(), Stop> {
        done.map_err(|_| Stop::Printed(write_status(&mut self.faults())))
    }

    /// Asks a question, and stops the work where the next line of standard input is no yes of at most 16 octets, with its line feed.
    pub fn ask<D: Display + Drop>(self, question: D) -> Result<(), Stop> {
        self.print(question)?;
        let input = self.rt.stdin().take(17);
        let mut input = self.at("standard input", BufReader::new(self.alloc(), input))?;
        let mut said = Vec::new(self.alloc());
        self.at("standard input", input.read_until(b'\n', &mut said))?;
        match said.as_slice().trim_ascii() {
            b"y" | b"Y" | b"yes" | b"Yes" if said.len() <= 16 => Ok(()),
            _ => Err(Stop::Printed(Status::TextFaulty)),
        }
    }

    // Makes a file at `wanted`, and waits until labntpd has written the file at `path` anew, for 1.5 seconds at most.
    fn wait_for_renewal(self, path: &str, wanted: &str) {
        let before = node_at(self, path);
        if new_for_owner(self.rt, wanted).is_err() {
            return;
        }
        for _ in 0..150 {
            pause(10);
            if node_at(self, path) != before {
                break;
            }
        }
        // labntpd leaves it where it writes for another reason.
        let _ = fs::remove_file(self.rt, wanted);
    }

    /// Reports why something is refused.
    pub fn refusal<D: Display + Drop>(self, why: D) -> Stop {
        let _ = writeln!(self.faults(), "{why}");
        Stop::Printed(Status::TextFaulty)
    }

    /// Reports what is wrong with the file at a path.
    pub fn refusal_at<D: Display + Drop>(self, path: &str, why: D) -> Stop {
        self.refusal(format_args!("{}: {why}", Escaped(path)))
    }

    /// Reports what failed at the file at a path.
    pub fn failure_at<D: Display + Drop>(self, path: &str, why: D) -> Stop {
        let _ = self.refusal_at(path, why);
        Stop::Printed(Status::IoFailed)
    }

    /// Returns what the system gave for something with this name, or reports its error.
    pub fn at<T>(self, name: &str, given: io::Result<T>) -> Result<T, Stop> {
        given.map_err(|error| Stop::Printed(failed_status(name, &error, &mut self.faults())))
    }

    /// Reads the regular file at a path, of at most `most` octets.
    pub fn octets(self, path: &str, most: u32) -> Result<Vec<u8>, Stop> {
        let read = read_regular_file(self.rt, self.alloc(), path, most);
        self.judged(path, most, read)
    }

    // Returns what was read of the file at a path, once it has at most `most` octets.
    fn judged(self, path: &str, most: u32, read: io::Result<Vec<u8>>) -> Result<Vec<u8>, Stop> {
        let octets = self.at(path, read)?;
        if octets.len() > most as usize {
            return Err(self.refusal_at(path, format_args!("at most {most} octets are wanted")));
        }
        Ok(octets)
    }

    /// Returns the text that the octets of the file at a path are.
    pub fn text(self, path: &str, octets: Vec<u8>) -> Result<String, Stop> {
        String::from_utf8(octets).map_err(|_| self.refusal_at(path, "this is no UTF-8"))
    }
}

/// A clerk who works by the configuration of labntpd.
#[derive(Drop)]
pub struct Clerk<'a> {
    pub desk: Desk<'a>,
    /// The path of the configuration file.
    pub config: &'a str,
    pub configuration: Configuration,
}

impl<'a> Clerk<'a> {
    /// Reads the configuration file at a path.
    pub fn new(desk: Desk<'a>, config: &'a str) -> Result<Clerk<'a>, Stop> {
        Ok(Clerk {
            desk,
            config,
            configuration: configuration_at(desk.rt, desk.alloc(), config, &mut desk.faults())?,
        })
    }

    /// Returns the path of the commands file.
    pub fn commands(&self) -> &str {
        self.configuration.commands.as_str()
    }

    /// Reads the commands file.
    pub fn load(&self) -> Result<Loaded, Stop> {
        Loaded::at(self.desk, self.commands())
    }

    /// Returns where customers ask, if the configuration says it: at `served_as`, else where labntpd listens.
    pub fn server(&self) -> Option<Server> {
        let (served, port) = (self.configuration.served_as, self.port());
        let named = served.map(|address| Server { address, port });
        named.or(self.listening())
    }

    /// Returns where labntpd listens, if its configuration says it.
    pub fn listening(&self) -> Option<Server> {
        let port = self.port();
        match self.configuration.listen {
            Listen::Bound(Endpoint { address, .. }) if address != ANY => {
                Some(Server { address, port })
            }
            _ => None,
        }
    }

    /// Returns the port at which labntpd listens; that of NTP where its socket is handed down.
    pub fn port(&self) -> u16 {
        match self.configuration.listen {
            Listen::Bound(endpoint) => endpoint.port.get(),
            Listen::Inherited => NTP_PORT,
        }
    }

    /// Reads a file in which labntpd reports, if it is named and there.
    pub fn reported(&self, path: &Option<Text>) -> Result<Option<String>, Stop> {
        let Some(path) = path else {
            return Ok(None);
        };
        let (desk, path, most) = (self.desk, path.as_str(), MOST_REPORTED_OCTETS);
        match read_shared_file(desk.rt, desk.alloc(), path, most) {
            Err(error) if error.kind() == ErrorKind::NotFound => Ok(None),
            read => Ok(Some(desk.text(path, desk.judged(path, most, read)?)?)),
        }
    }

    /// Has labntpd write its customers file anew, by a file beside it, and waits until that is done. Warns of an old one.
    pub fn renew_customers(&self) -> Result<(), AllocError> {
        let (desk, path) = (self.desk, self.configuration.customers.as_ref());
        let path = path.map_or("", |path| path.as_str());
        let (Some(written), Some(now)) = (desk.written_at(path), desk.now()) else {
            return Ok(());
        };
        if !may_be_renewed(written, now) {
            let (path, age) = (Escaped(path), now.saturating_sub(written));
            let why = "labntpd, where it serves, writes it each minute";
            let _ = writeln!(desk.faults(), "warning: {path}: {age} seconds old: {why}");
            return Ok(());
        }
        let wanted = format!(in desk.alloc(); "{path}.wanted")?;
        desk.wait_for_renewal(path, wanted.as_str());
        Ok(())
    }

    /// Reports why something is refused at the commands file.
    pub fn refusal<D: Display + Drop>(&self, why: D) -> Stop {
        self.desk.refusal_at(self.commands(), why)
    }
}

// Returns which file stands at a path, if one does.
fn node_at(desk: Desk<'_>, path: &str) -> Option<u64> {
    Some(fs::metadata(desk.rt, path).ok()?.ino())
}

/// An address with its name, if it has one.
#[derive(Clone, Copy)]
pub struct Named<'a>(pub Address, pub &'a str);

impl<'a> Display for Named<'a> {
    fn fmt<W: fmt::Write>(&self, f: &mut fmt::Formatter<W>) -> fmt::Result {
        match *self {
            Named(address, "") => write!(f, "{}", Dotted(address)),
            Named(address, name) => write!(f, "{} ({name})", Dotted(address)),
        }
    }
}

/// Returns the date of a time in seconds since 1970, with decimals or without; the seconds where they are no date.
pub fn signed_date(alloc: Global, seconds: &str) -> Result<String, AllocError> {
    match whole_seconds(seconds).and_then(|whole| date(alloc, whole, SIGNED_FORM)) {
        Some(date) => Ok(date),
        None => format!(in alloc; "{}", Escaped(seconds)),
    }
}

// Returns a time in seconds since 1970.
fn seconds_of(time: SystemTime) -> Option<u64> {
    Some(time.duration_since(SystemTime::UNIX_EPOCH).ok()?.as_secs())
}

/// Returns the whole seconds of a count with decimals or without, if it is one.
pub fn whole_seconds(seconds: &str) -> Option<u64> {
    let whole = seconds.split_once('.').map_or(seconds, |(whole, _)| whole);
    whole.parse::<u64>().ok()
}

/// Returns the date of a time in seconds since 1970, in a form of strftime(3); nothing where it is no date, or memory runs out.
pub fn date(alloc: Global, seconds: u64, form: &'static str) -> Option<String> {
    let time = Timestamp::from_second(i64::try_from(seconds).ok()?).ok()?;
    time.strftime(alloc, form).ok()
}

/// What was found in a file, with the number of its line, if it has one.
#[derive(Clone, Copy)]
pub struct FoundAt<'a>(pub &'a Found);

impl<'a> Display for FoundAt<'a> {
    fn fmt<W: fmt::Write>(&self, f: &mut fmt::Formatter<W>) -> fmt::Result {
        let Found { line, text } = self.0;
        match line {
            Some(line) => write!(f, "line {line}: {text}"),
            None => write!(f, "{text}"),
        }
    }
}
