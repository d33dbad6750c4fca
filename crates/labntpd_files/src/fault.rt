//! What is wrong with a configuration file, and at a key of a table; and what is found in a file, in which lines.

use crate::command_line::VERSION;
use crate::key_text::shown;
use crate::setting::{TOP_KEYS, is_known, value_at};
use crate::values::wrong_at;
use crate::{Setting, Text};
use ConfigurationFault::*;
use ntp_admin::Escaped;
use std::alloc::{AllocError, Global};
use std::collections::BTreeMap;
use std::fmt::{self, Display};
use toml::Table;
use toml::de::Error;

/// The first fault of a configuration file: its text, a key that is none, or a setting, in the order of its table; or want of memory.
#[derive(Drop)]
pub enum ConfigurationFault {
    /// The text is no TOML document, which shows in this line, counted from 1.
    Toml(u64),
    /// There is no such key at the top level: the first in the order of octets.
    Unknown(Text),
    /// There is no such key in the table `[clock]`, with the source that stands there.
    UnknownOfClock(Text),
    /// The setting is missing.
    Missing(Setting),
    /// Another value is wanted at the setting.
    Wanted(Setting),
    /// Memory ran out.
    NoMemory,
}

pub(crate) type Reading<T> = Result<T, ConfigurationFault>;

impl From<AllocError> for ConfigurationFault {
    ghost use Rattle.std.specs.Prelude.{◌≡◌};
    ghost use Rattle.labntpd_files.specs.declared.fault.ConfigurationFault.TheVariants.{NoMemory};

    ghost from_gives = { λ _ fault. fault ≡ NoMemory };

    fn from(_: AllocError) -> ConfigurationFault {
        ConfigurationFault::NoMemory
    }
}

/// The fault in one line, without a line feed; in the alternate form no table stands before its key.
impl fmt::Display for ConfigurationFault {
    fn fmt<W: fmt::Write>(&self, f: &mut fmt::Formatter<W>) -> fmt::Result {
        match self {
            _ if f.alternate() => {}
            UnknownOfClock(_) => f.write_str("clock.")?,
            Missing(it) | Wanted(it) if !is_known(&TOP_KEYS, it.0) => f.write_str("clock.")?,
            _ => {}
        }
        match self {
            Toml(line) => write!(f, "line {line}: this is no TOML"),
            Unknown(key) | UnknownOfClock(key) if key.as_str() == "register" => f.write_str(
                "register: customers stand in the commands file alone: `examples/from_register` puts those of a register \
                there, or `labntpctl apply FILE` if it is empty",
            ),
            Unknown(key) | UnknownOfClock(key) => {
                let key = Escaped(key.as_str());
                write!(f, "{key}: there is no such key in version {VERSION}")
            }
            Missing(Setting(key, kind)) => write!(f, "{key}: this key is missing: {kind}"),
            Wanted(Setting(key, kind)) => write!(f, "{key}: {kind}"),
            NoMemory => f.write_str("memory ran out"),
        }
    }
}

/// The lines, counted from 1, in which keys first stand where lines begin; so these are lines for messages alone.
pub(crate) type Lines = BTreeMap<String, u64>;

/// What was found in a file.
#[derive(Drop)]
pub struct Found {
    /// The line, counted from 1, where it is known.
    pub line: Option<u64>,
    /// What was found, in words that show no key.
    pub text: String,
}

pub(crate) fn add<D: Display + Drop>(
    found: &mut Vec<Found>,
    line: Option<u64>,
    what: D,
) -> Result<(), AllocError> {
    let text = what.to_string(*found.allocator())?;
    Ok(found.push(Found { line, text })?)
}

/// Why a text is no TOML, by the error of its reader.
pub(crate) fn no_toml(alloc: Global, text: &str, error: &Error) -> Result<Vec<Found>, AllocError> {
    let (line, column) = place_at(text, error.span().ok_or(AllocError)?.start);
    let text = format!(in alloc; "column {column}: this is no TOML: {}", error.message())?;
    let line = Some(line);
    Ok(vec![in alloc; Found { line, text }]?)
}

/// Adds what is wrong with a table that may have these keys. Each is told behind `prefix`, and in its own line where that is known.
pub(crate) fn add_faults(
    found: &mut Vec<Found>,
    prefix: &str,
    lines: &Lines,
    line: Option<u64>,
    table: &Table,
    keys: &[Setting],
) -> Result<(), AllocError> {
    let line_of = |key: &str| lines.get(key).copied().or(line);
    for setting in keys {
        if let Some(fault) = wrong_at(table, *setting) {
            let there = shown(*found.allocator(), setting.1, value_at(table, setting.0))?;
            let what = format_args!("{prefix}{fault:#}{there}");
            add(found, line_of(setting.0), what)?;
        }
    }
    for key in table.keys() {
        let key = key.as_str();
        if !is_known(keys, key) {
            let fault = ConfigurationFault::Unknown(Text::of(*found.allocator(), key)?);
            add(found, line_of(key), format_args!("{prefix}{fault:#}"))?;
        }
    }
    Ok(())
}

/// The line and the column in which an octet of a text stands, counted from 1.
pub(crate) fn place_at(text: &str, octet: usize) -> (u64, u64) {
    let before = text.as_bytes().get(..octet).unwrap_or(&[]);
    let lines = before.iter().filter(|it| **it == b'\n').count();
    let columns = before.iter().rev().take_while(|it| **it != b'\n').count();
    (lines as u64 + 1, columns as u64 + 1)
}

/// The lines of the keys of a table, or of the top level, which has no name.
pub(crate) fn key_lines(alloc: Global, text: &str, table: &str) -> Result<Lines, AllocError> {
    let (mut lines, mut is_within) = (BTreeMap::new(alloc), table.is_empty());
    for (number, line) in (1_u64..).zip(text.lines()) {
        let line = line.trim_start();
        let name = line.trim_start_matches('[');
        let mut parts = name.split(|it: char| !it.is_alphanumeric() && !matches!(it, '_' | '-'));
        let (key, is_header) = (parts.next().unwrap_or(""), name.len() < line.len());
        let is_key = is_header && table.is_empty() || !is_header && is_within;
        if is_key && !key.is_empty() && !lines.contains_key(key) {
            lines.insert(String::from_str(alloc, key)?, number)?;
        }
        if is_header {
            is_within = !key.is_empty() && key == table;
        }
    }
    Ok(lines)
}
