//! What a server begins with, read from its files.
ghost use Rattle.std.specs.Prelude.{IfOk};
ghost use Rattle.labntpd_files.specs.declared.configuration.Clock.{Clock};
ghost use Rattle.labntpd_start.specs.Prepared.{IsClockOf};

use crate::host_addresses::SeveralAddresses;
use crate::lines::StartLines;
use crate::places::{NamedFiles, readers_of, tell_places};
use labntpd_files::{
    Clock, ClockDaemon, Configuration, ConfigurationFault, Endpoint, Listen, key_in_file,
    read_configuration,
};
use ntp_admin::{Escaped, Status, failed_status, memory_status};
use ntp_client::{ClockLimits, Follower};
use ntp_host::read_regular_file;
use ntp_packet::Short;
use ntp_reply::Reference;
use sha2::{Digest, Sha256};
use std::alloc::Global;
use std::fmt::Display;
use std::fs::Files;
use std::io::Write;

/// How many octets a configuration file and a key file have at most.
const MOST_SMALL_FILE_OCTETS: u32 = 65_536;

/// What is wanted in the file of the clock's key.
pub const KEY_LINE_WANTED: &str = "one line of 2 to 64 hexadecimal digits is wanted";

/// What was read from a configuration file, and from the key file that it names.
#[derive(Drop)]
pub struct Prepared {
    /// What the configuration file says.
    pub configuration: Configuration,
    /// Who says how good the host's clock is.
    pub clock: PreparedClock,
    /// The SHA-256 digest of the configuration file.
    pub digest: [u8; 32],
}

/// Who says how good the host's clock is.
#[derive(Drop)]
pub enum PreparedClock {
    /// Nobody: replies tell this reference state.
    Fixed(Reference),
    /// The host's clock daemon, which answers there and was not asked yet.
    Followed(Endpoint, Follower),
}

/// Reads the configuration file at a path, and the key file that it names, and judges where its files stand. Writes a fault in
/// one line to `faults`, where a failed write is passed over, and returns the exit status. Warns of files with keys that others
/// may read.
pub fn prepare<R: Files, F: Write + Drop>(
    files: &R,
    alloc: Global,
    path: &str,
    faults: &mut StartLines<F>,
) -> Result<Prepared, Status>
    ensures { IfOk result (λ prepared. IsClockOf prepared.configuration.clock prepared.clock) }
{
    let (text, configuration) = configuration_text(files, alloc, path, faults)?;
    let named = NamedFiles::of(path, &configuration);
    if tell_places(files, alloc, named, 1, faults)? > 0 {
        return Err(Status::TextFaulty);
    }
    let clock = match &configuration.clock {
        Clock::Fixed(reference) => PreparedClock::Fixed(*reference),
        Clock::Followed(daemon) => followed(files, alloc, daemon, faults)?,
    };
    let commands = configuration.commands.as_str();
    faults.warn(commands, readers_of(files, commands));
    // A socket that is handed down is judged once it is there.
    if matches!(configuration.listen, Listen::Bound(_)) {
        let several = SeveralAddresses::configured(files, alloc, configuration.listen);
        faults.warn(path, several);
    }
    Ok(Prepared {
        configuration,
        clock,
        digest: Sha256::digest(text.as_bytes()),
    })
}

/// Reads the configuration file at a path, and nothing that it names. Writes a fault in one line to `faults`, and returns the
/// exit status.
pub fn configuration_at<R: Files, F: Write>(
    files: &R,
    alloc: Global,
    path: &str,
    faults: &mut F,
) -> Result<Configuration, Status> {
    Ok(configuration_text(files, alloc, path, faults)?.1)
}

// Reads a configuration file: its text and what that says.
fn configuration_text<R: Files, F: Write>(
    files: &R,
    alloc: Global,
    path: &str,
    faults: &mut F,
) -> Result<(String, Configuration), Status> {
    let text = small_text(files, alloc, path, faults)?;
    match read_configuration(alloc, text.as_str()) {
        Ok(configuration) => Ok((text, configuration)),
        Err(ConfigurationFault::NoMemory) => Err(memory_status(faults)),
        Err(fault) => Err(faulty(path, fault, faults)),
    }
}

// The clock daemon of a configuration, followed with the key of its key file.
fn followed<R: Files, F: Write + Drop>(
    files: &R,
    alloc: Global,
    daemon: &ClockDaemon,
    faults: &mut StartLines<F>,
) -> Result<PreparedClock, Status>
    ensures { IfOk result (IsClockOf (Clock.Followed daemon.now)) }
{
    let path = daemon.key_file.as_str();
    let text = small_text(files, alloc, path, faults)?;
    let Some(key) = key_in_file(&text, daemon.algorithm) else {
        return Err(faulty(path, KEY_LINE_WANTED, faults));
    };
    let limits = ClockLimits {
        valid_for: daemon.valid_for,
        most_root_distance: Short(daemon.most_root_distance),
        most_reference_age: daemon.most_reference_age,
        most_step: daemon.most_step,
    };
    faults.warn(path, readers_of(files, path));
    let follower = Follower::new(key, daemon.number.get(), limits);
    Ok(PreparedClock::Followed(daemon.source, follower))
}

/// Reads the text of a file that has at most 65,536 octets. Writes a fault in one line to `faults`, and returns the exit status.
pub fn small_text<R: Files, F: Write>(
    files: &R,
    alloc: Global,
    path: &str,
    faults: &mut F,
) -> Result<String, Status> {
    let read = read_regular_file(files, alloc, path, MOST_SMALL_FILE_OCTETS);
    let octets = read.map_err(|error| failed_status(path, &error, faults))?;
    if octets.len() > MOST_SMALL_FILE_OCTETS as usize {
        let wanted = format_args!("at most {MOST_SMALL_FILE_OCTETS} octets are wanted");
        return Err(faulty(path, wanted, faults));
    }
    String::from_utf8(octets).map_err(|_| faulty(path, "this is no UTF-8", faults))
}

// Writes what is wrong with the text of a file, and returns the exit status.
fn faulty<D: Display + Drop, F: Write>(path: &str, what: D, faults: &mut F) -> Status {
    let _ = writeln!(faults, "{}: {what}", Escaped(path));
    Status::TextFaulty
}
