//! What a configuration file says, and what is wrong with its text.
ghost use Rattle.std.specs.Prelude.{◌≡◌, ◌⊎◌, Some, None, Err, IfOk, IfErr, OnOk};
ghost use Rattle.toml.specs.{View.table_view, Parse.parse_document};
ghost use Rattle.labntpd_files.specs.Settings.{clock_in, daemon_in, files_in, settings_in, unknown_key, said_by, HasClockRanges, HasDaemonRanges, HasRanges, IsReadAs, Reads};

use crate::fault::{ConfigurationFault, Found, Reading, add_faults, key_lines, no_toml, place_at};
use crate::setting::*;
use crate::values::{
    boolean_at, count_at, count_or, endpoint_in, listen_in, number_at, optional_address,
    optional_text, path_text, table_at, word_at,
};
use ntp_admin::words;
use ntp_mac::Algorithm;
use ntp_reply::Reference;
use ntp_service::Address;
use std::alloc::{AllocError, Global};
use std::fmt;
use std::marker::Model;
use std::net::{Ipv4Addr, SocketAddrV4};
use std::num::NonZero;
use toml::Table;

/// A text that is kept: the path of a file, or a key of a table. Contracts see its octets.
#[derive(Drop)]
pub struct Text(String);

impl Model for Text {
    ghost use Rattle.std.specs.Prelude.{ℕ, List, string_bytes};

    ghost Value = { List ℕ };

    ghost view = { λ text. string_bytes text.0 };
}

impl Text {
    /// A copy of a text.
    pub fn of(alloc: Global, text: &str) -> Result<Text, AllocError>
        ensures { IfOk result (λ copy. copy ≡ text.now) }
    {
        Ok(Text(String::from_str(alloc, text)?))
    }

    /// The text itself.
    pub fn as_str(&self) -> &str
        ensures { result.now ≡ self.now }
    {
        self.0.as_str()
    }
}

impl fmt::Display for Text {
    fn fmt<W: fmt::Write>(&self, f: &mut fmt::Formatter<W>) -> fmt::Result {
        f.write_str(self.as_str())
    }
}

/// What a configuration file says. Each number is in the range that its key has.
#[derive(Drop)]
pub struct Configuration {
    /// Where datagrams are received.
    pub listen: Listen,
    /// The address by which customers reach this host, which `labntpctl` writes into their files.
    pub served_as: Option<Address>,
    /// The path of the commands file.
    pub commands: Text,
    /// The path of the file to which the answers to commands are written, if they are.
    pub answers: Option<Text>,
    /// The path of the file to which statistics are written, if they are.
    pub statistics: Option<Text>,
    /// The path of the file to which it is written what each customer has and was answered, if it is.
    pub customers: Option<Text>,
    /// The size that the socket's receive buffer is to have, in octets: 65,536 to 1,073,741,823.
    pub receive_buffer: u32,
    /// The size that its send buffer is to have, in octets, in the same range.
    pub send_buffer: u32,
    /// How long a datagram may have waited for an answer, in nanoseconds: 0.15 to 60 s.
    pub longest_wait: u64,
    /// Whether the daemon never sleeps while it waits for datagrams, and so takes a processor wholly.
    pub spin: bool,
    /// How good the host's clock is.
    pub clock: Clock,
}

/// Who says how good the host's clock is.
#[derive(Drop)]
pub enum Clock {
    /// Nobody: replies tell this reference state.
    Fixed(Reference),
    /// A daemon, which is asked.
    Followed(ClockDaemon),
}

/// Where datagrams are received.
#[derive(Clone, Copy)]
pub enum Listen {
    /// At a socket that is bound here.
    Bound(Endpoint),
    /// At the socket that was handed down: descriptor 3 of LISTEN_FDS.
    Inherited,
}

/// An address with a UDP port.
#[derive(Clone, Copy)]
pub struct Endpoint {
    /// The IPv4 address.
    pub address: Address,
    /// The UDP port.
    pub port: NonZero<u16>,
}

impl Endpoint {
    /// Its form for sockets.
    pub fn socket_address(&self) -> SocketAddrV4 {
        SocketAddrV4::new(Ipv4Addr::from(self.address.0), self.port.get())
    }
}

/// The daemon that keeps the host's clock, how it is asked, and when it is believed.
#[derive(Drop)]
pub struct ClockDaemon {
    /// Where it answers queries.
    pub source: Endpoint,
    /// The number of the key that it shares with us.
    pub number: NonZero<u16>,
    /// The algorithm of that key.
    pub algorithm: Algorithm,
    /// The path of the file that has that key.
    pub key_file: Text,
    /// For how long one of its answers is believed, in nanoseconds: 10 to 3,600 s.
    pub valid_for: u64,
    /// The root distance up to which it is believed, in units of 2^-16 s: 1 unit to 16 s.
    pub most_root_distance: u32,
    /// The age of its reference time up to which it is believed, in seconds: 1 to 1,000,000. `None` where any age is.
    pub most_reference_age: Option<u64>,
    /// How far the host's clock may have been set since an answer that is believed, in nanoseconds: 1 ns to 3,600 s.
    pub most_step: u64,
}

/// What the text of a configuration file says (TOML 1.1), or its first fault.
pub fn read_configuration(alloc: Global, text: &str) -> Result<Configuration, ConfigurationFault>
    ensures read { (result ≡ Err ConfigurationFault.NoMemory) ⊎ IsReadAs (parse_document text.now) result }
    ensures ranges { IfOk result HasRanges }
{
    let document = toml::table_from_str(alloc, text).map_err(|error| match error.span() {
        None => ConfigurationFault::NoMemory,
        Some(span) => ConfigurationFault::Toml(place_at(text, span.start).0),
    })?;
    refuse_unknown_keys(alloc, &document)?;
    configuration_in(alloc, &document)
}

/// Every fault of the text of a configuration file, in the order of its lines; those without a line stand in front.
pub fn configuration_faults(alloc: Global, text: &str) -> Result<Vec<Found>, AllocError> {
    let document = match toml::table_from_str(alloc, text) {
        Ok(document) => document,
        Err(error) => return no_toml(alloc, text, &error),
    };
    let (mut found, lines) = (Vec::new(alloc), key_lines(alloc, text, "")?);
    add_faults(&mut found, "", &lines, None, &document, &TOP_KEYS)?;
    if let Ok(clock) = table_at(&document, CLOCK) {
        let line = lines.get(CLOCK.0).copied();
        let lines = key_lines(alloc, text, CLOCK.0)?;
        add_faults(&mut found, "clock.", &lines, line, clock, clock_keys(clock))?;
    }
    found.sort_by_key(|found| found.line)?;
    Ok(found)
}

fn refuse_unknown_keys(alloc: Global, document: &Table) -> Reading<()>
    ensures known { OnOk result (unknown_key (table_view document.now) ≡ None) }
    ensures fault { IfErr result (λ fault. (fault ≡ ConfigurationFault.NoMemory) ⊎ (unknown_key (table_view document.now) ≡ Some (said_by fault))) }
{
    if let Some(key) = unknown_in(&TOP_KEYS, document) {
        return Err(ConfigurationFault::Unknown(Text::of(alloc, key)?));
    }
    if let Ok(clock) = table_at(document, CLOCK)
        && let Some(key) = unknown_in(clock_keys(clock), clock)
    {
        return Err(ConfigurationFault::UnknownOfClock(Text::of(alloc, key)?));
    }
    Ok(())
}

fn configuration_in(alloc: Global, document: &Table) -> Reading<Configuration>
    ensures settings { Reads (settings_in (table_view document.now)) result }
    ensures ranges { IfOk result HasRanges }
{
    let [listen, served_as, ..] = TOP_KEYS;
    let [.., receive_buffer, send_buffer, longest_wait, spin, _] = TOP_KEYS;
    let listen = word_at(document, listen, listen_in)?;
    let served_as = optional_address(document, served_as)?;
    let (commands, answers, statistics, customers) = files_in(alloc, document)?;
    Ok(Configuration {
        listen,
        served_as,
        commands,
        answers,
        statistics,
        customers,
        receive_buffer: count_or(document, receive_buffer, 524_288)? as u32,
        send_buffer: count_or(document, send_buffer, 1_048_576)? as u32,
        longest_wait: count_or(document, longest_wait, SECOND / 4)?,
        spin: boolean_at(document, spin)?,
        clock: clock_in(alloc, document)?,
    })
}

fn files_in(
    alloc: Global,
    document: &Table,
) -> Reading<(Text, Option<Text>, Option<Text>, Option<Text>)>
    ensures { Reads (files_in (table_view document.now)) result }
{
    let [_, _, commands, answers, statistics, customers, ..] = TOP_KEYS;
    Ok((
        path_text(alloc, document, commands)?,
        optional_text(alloc, document, answers)?,
        optional_text(alloc, document, statistics)?,
        optional_text(alloc, document, customers)?,
    ))
}

fn clock_in(alloc: Global, document: &Table) -> Reading<Clock>
    ensures clock { Reads (clock_in (table_view document.now)) result }
    ensures ranges { IfOk result HasClockRanges }
{
    let clock = table_at(document, CLOCK)?;
    if is_fixed(clock) {
        return Ok(Clock::Fixed(word_at(clock, REFERENCE, words::reference)?));
    }
    Ok(Clock::Followed(daemon_in(alloc, clock)?))
}

fn daemon_in(alloc: Global, clock: &Table) -> Reading<ClockDaemon>
    ensures daemon { Reads (daemon_in (table_view clock.now)) result }
    ensures ranges { IfOk result HasDaemonRanges }
{
    let [_, _, _, key_file, valid_for, distance, age, step] = DAEMON_KEYS;
    Ok(ClockDaemon {
        source: word_at(clock, SOURCE, endpoint_in)?,
        number: number_at(clock, NUMBER)?,
        algorithm: word_at(clock, ALGORITHM, words::algorithm)?,
        key_file: path_text(alloc, clock, key_file)?,
        valid_for: count_or(clock, valid_for, 16 * SECOND)?,
        most_root_distance: count_or(clock, distance, 65_536)? as u32,
        most_reference_age: count_at(clock, age)?,
        most_step: count_or(clock, step, SECOND / 2)?,
    })
}
