//! The keys of a configuration file and of a file of customers, and what is wanted at each.
ghost use Rattle.std.specs.Prelude.{◌≡◌, option_map};
ghost use Rattle.toml.specs.{Data.get_member, View.view, View.table_view};
ghost use Rattle.labntpd_files.specs.Keys.{names, is_fixed, clock_keys, is_known, unknown_in};

use Kind::Seconds;
use std::fmt;
use std::num::nearest_u64_to_f64;
use toml::{Table, Value};

/// A key of a table, and what is wanted there.
#[derive(Clone, Copy)]
pub struct Setting(pub(crate) &'static str, pub(crate) Kind);

/// What is wanted at a key. Beside the optional ones, octets, seconds (units in one, the least, the most), a boolean, a name and customers
/// may be left out.
#[derive(Clone, Copy)]
pub(crate) enum Kind {
    Listen,
    Source,
    Path,
    OptionalPath,
    Octets,
    Seconds(u32, u64, u64),
    Boolean,
    Reference,
    Number,
    Algorithm,
    Address,
    OptionalAddress,
    Key,
    Name,
    Table,
    OptionalTable,
    Customers,
}

const NANOS: u32 = 1_000_000_000;

pub(crate) const SECOND: u64 = 1_000_000_000;

pub(crate) const CLOCK: Setting = Setting("clock", Kind::Table);

pub(crate) const SOURCE: Setting = Setting("source", Kind::Source);

pub(crate) const REFERENCE: Setting = Setting("reference", Kind::Reference);

pub(crate) const NUMBER: Setting = Setting("number", Kind::Number);

pub(crate) const ALGORITHM: Setting = Setting("algorithm", Kind::Algorithm);

pub(crate) const CUSTOMER: Setting = Setting("customer", Kind::Customers);

/// The keys of the top level of a configuration file, in the order in which they are looked at.
pub(crate) const TOP_KEYS: [Setting; 11] = [
    Setting("listen", Kind::Listen),
    Setting("served_as", Kind::OptionalAddress),
    Setting("commands", Kind::Path),
    Setting("answers", Kind::OptionalPath),
    Setting("statistics", Kind::OptionalPath),
    Setting("customers", Kind::OptionalPath),
    Setting("receive_buffer", Kind::Octets),
    Setting("send_buffer", Kind::Octets),
    Setting("longest_wait", Seconds(NANOS, 150_000_000, 60 * SECOND)),
    Setting("spin", Kind::Boolean),
    CLOCK,
];

/// The keys of a clock that a daemon keeps.
pub(crate) const DAEMON_KEYS: [Setting; 8] = [
    SOURCE,
    NUMBER,
    ALGORITHM,
    Setting("key_file", Kind::Path),
    // Eight seconds pass without a question behind a RATE (RFC 5905, 7.4), and there are one before it and one for the answer.
    Setting("valid_for", Seconds(NANOS, 10 * SECOND, 3_600 * SECOND)),
    // In units of the short format (RFC 5905, 6).
    Setting("most_root_distance", Seconds(65_536, 1, 1_048_576)),
    Setting("most_reference_age", Seconds(1, 1, 1_000_000)),
    Setting("most_step", Seconds(NANOS, 1, 3_600 * SECOND)),
];

/// The keys of a customer: those from the second to the fourth are the ones of its newer key.
pub(crate) const CUSTOMER_KEYS: [Setting; 7] = [
    Setting("address", Kind::Address),
    NUMBER,
    ALGORITHM,
    Setting("key", Kind::Key),
    Setting("budget", Kind::Number),
    Setting("name", Kind::Name),
    Setting("newer", Kind::OptionalTable),
];

impl fmt::Display for Kind {
    fn fmt<W: fmt::Write>(&self, f: &mut fmt::Formatter<W>) -> fmt::Result {
        f.write_str(match self {
            Kind::Listen =>
                "an IPv4 address with a port, as \"192.0.2.1:123\", or \"inherited\" is wanted",
            Kind::Source =>
                "an IPv4 address with a port, as \"127.0.0.1:123\", or \"fixed\" is wanted",
            Kind::Path | Kind::OptionalPath => "the path of a file is wanted",
            Kind::Octets => "a whole number of octets from 65536 to 1073741823 is wanted",
            Kind::Seconds(units, least, most) => {
                let [low, high] = [least, most].map(|count| nearest_u64_to_f64(*count)
                    / f64::from(*units));
                if *least == 1 && *units > 1 {
                    return write!(f, "a number of seconds above 0 and up to {high} is wanted");
                }
                return write!(f, "a number of seconds from {low} to {high} is wanted");
            }
            Kind::Boolean => "true or false is wanted",
            Kind::Reference => "the 46 hexadecimal digits of a reference state are wanted",
            Kind::Number => "a whole number from 1 to 65535 is wanted",
            Kind::Algorithm => "\"md5\" or \"sha1\" is wanted",
            Kind::Address | Kind::OptionalAddress => "an IPv4 address, as \"192.0.2.1\", is wanted",
            Kind::Key => "2 to 64 hexadecimal digits, an even number, are wanted",
            Kind::Name => "a text of 1 to 200 octets without control characters is wanted",
            Kind::Table => "a table is wanted",
            Kind::OptionalTable => "a table with number, algorithm and key is wanted",
            Kind::Customers => "an array of tables is wanted",
        })
    }
}

pub(crate) fn clock_keys(clock: &Table) -> &'static [Setting]
    ensures { names result.now ≡ clock_keys (table_view clock.now) }
{
    match is_fixed(clock) {
        true => &[SOURCE, REFERENCE],
        false => &DAEMON_KEYS,
    }
}

/// Whether the source of a clock is fixed.
pub fn is_fixed(clock: &Table) -> bool
    ensures { result ≡ is_fixed (table_view clock.now) }
{
    value_at(clock, SOURCE.0).and_then(|source| source.as_str()) == Some("fixed")
}

#[tactic(auto, using(toml::proofs::Views::table_get))]
pub(crate) fn value_at<'a>(table: &'a Table, key: &str) -> Option<&'a Value>
    ensures { option_map (λ value. view value.now) result ≡ get_member key.now (table_view table.now) }
{
    table.get(key)
}

pub(crate) fn is_known(known: &[Setting], key: &str) -> bool
    ensures { result ≡ is_known (names known.now) key.now }
{
    known.iter().any(|setting| key == setting.0)
}

/// The first key of a table, in the order of their octets, that is none of these.
pub(crate) fn unknown_in<'a>(known: &[Setting], table: &'a Table) -> Option<&'a str>
    ensures { option_map (λ key. key.now) result ≡ unknown_in (names known.now) (table_view table.now) }
{
    for key in table.keys() {
        if !is_known(known, key.as_str()) {
            return Some(key.as_str());
        }
    }
    None
}
