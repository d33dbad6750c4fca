//! What a file of wanted customers says, and a wanted customer as text.
ghost use Rattle.std.specs.Prelude.{◌≡◌, Some, Ok, nat_eq, IfOk, IsTrue};
ghost use Rattle.std.specs.List.{IsDistinct};
ghost use Rattle.toml.specs.{Parse.parse_document, View.table_view};
ghost use Rattle.labntpd_files.specs.Settings.{Reads, IsSaid};
ghost use Rattle.labntpd_files.specs.Wanted.{key_in, customer_in, customers_in, key_numbers, wanted_in, AreDistinct};

use crate::fault::{Found, Lines, Reading, add, add_faults, key_lines, no_toml};
use crate::setting::*;
use crate::values::{customers_at, number_at, optional_text, table_at, word_at};
use crate::{ConfigurationFault, Text, address_warning, budget_warning, key_warning};
use ntp_admin::words;
use ntp_mac::{Algorithm, Key};
use ntp_service::Address;
use std::alloc::{AllocError, Global};
use std::collections::BTreeSet;
use std::io::{self, Write};
use std::iter;
use std::net::Ipv4Addr;
use std::num::NonZero;
use toml::Table;

/// A customer that is wanted.
#[derive(Drop)]
pub struct WantedCustomer {
    /// Its address.
    pub address: Address,
    /// Its key; the older of two while it is rolled.
    pub older: WantedKey,
    /// The newer key, while it is rolled.
    pub newer: Option<WantedKey>,
    /// Its budget.
    pub budget: NonZero<u16>,
    /// Its name: 1 to 200 octets without control characters.
    pub name: Option<Text>,
}

/// A key that a customer is to have.
#[derive(Clone, Copy)]
pub struct WantedKey {
    /// Its number.
    pub number: NonZero<u16>,
    /// The key, a secret.
    pub key: Key,
}

/// What a file of wanted customers says.
#[derive(Drop)]
pub struct Wanted {
    /// The customers, in file order.
    pub customers: Vec<WantedCustomer>,
    /// What is no fault, but hardly meant, in the order of the lines.
    pub warnings: Vec<Found>,
}

/// What is wrong with an address, or the number of a key, that an earlier customer has, or an earlier key.
const TWICE: &str = "it stands in the file twice";

/// What the text of a file of wanted customers says (`docs/FORMATS.md`, section 8), or every fault in it, in the order of lines;
/// those without a line stand in front. Without a customer nobody is wanted. A `reference` at the top level is skipped.
pub fn read_wanted(alloc: Global, text: &str) -> Result<Result<Wanted, Vec<Found>>, AllocError>
    ensures customers { IfOk result (λ read. IfOk read (λ wanted. wanted_in (parse_document text.now) ≡ Some wanted.customers.items)) }
    ensures distinct { IfOk result (λ read. IfOk read (λ wanted. AreDistinct wanted.customers.items)) }
{
    let mut document = match toml::table_from_str(alloc, text) {
        Ok(document) => document,
        Err(error) => return Ok(Err(no_toml(alloc, text, &error)?)),
    };
    let customers = customers_in(alloc, &document);
    let _ = document.remove(REFERENCE.0);
    let (mut found, lines) = (Vec::new(alloc), customer_lines(alloc, text)?);
    let keys = key_lines(alloc, text, "")?;
    add_faults(&mut found, "", &keys, None, &document, &[CUSTOMER])?;
    add_customers(&mut found, &document, &lines)?;
    found.sort_by_key(|found| found.line)?;
    let customers = match customers {
        Ok(customers) => customers,
        Err(ConfigurationFault::NoMemory) => return Err(AllocError),
        Err(_fault) => return Ok(Err(found)),
    };
    if !found.is_empty() || !are_distinct(alloc, &customers)? {
        return Ok(Err(found));
    }
    let warnings = warnings_of(&customers, &lines)?;
    Ok(Ok(Wanted {
        customers,
        warnings,
    }))
}

// The lines, counted from 1, that begin with the header of a customer.
fn customer_lines(alloc: Global, text: &str) -> Result<Vec<u64>, AllocError> {
    let numbered = (1_u64..).zip(text.lines());
    let headers = numbered.filter(|(_, line)| line.trim_start().starts_with("[[customer]]"));
    headers.map(|(number, _)| number).collect(alloc)
}

// Adds what is wrong with the customers of a file, which begin in these lines.
fn add_customers(found: &mut Vec<Found>, file: &Table, lines: &[u64]) -> Result<(), AllocError> {
    let alloc = *found.allocator();
    let (mut addresses, mut numbers) = (BTreeSet::new(alloc), BTreeSet::new(alloc));
    let ([address, .., newer], no_lines) = (CUSTOMER_KEYS, Lines::new(alloc));
    let customers = customers_at(file, CUSTOMER).unwrap_or(&[]);
    for (index, customer) in customers.iter().enumerate() {
        let (line, table) = (lines.get(index).copied(), customer.as_table());
        let address = table.and_then(|table| word_at(table, address, words::address).ok());
        let who = match address {
            None => format!(in alloc; "customer {}: ", index.saturating_add(1)),
            Some(address) => format!(in alloc; "customer {}: ", Ipv4Addr::from(address.0)),
        }?;
        let Some(table) = table else {
            add(found, line, format_args!("{who}a table is wanted"))?;
            continue;
        };
        let newer = match table_at(table, newer) {
            Ok(newer) => Some(("newer.", newer, &CUSTOMER_KEYS[1..4])),
            Err(_) => None,
        };
        for (part, table, keys) in iter::once(("", table, &CUSTOMER_KEYS[..])).chain(newer) {
            let prefix = format!(in alloc; "{who}{part}")?;
            add_faults(found, &prefix, &no_lines, line, table, keys)?;
            if let Ok(number) = number_at(table, NUMBER)
                && !numbers.insert(number.get())?
            {
                add(found, line, format_args!("{prefix}number: {TWICE}"))?;
            }
        }
        if let Some(address) = address
            && !addresses.insert(address)?
        {
            add(found, line, format_args!("{who}address: {TWICE}"))?;
        }
    }
    Ok(())
}

fn warnings_of(customers: &Vec<WantedCustomer>, lines: &[u64]) -> Result<Vec<Found>, AllocError> {
    let mut found = Vec::new(*customers.allocator());
    for (index, customer) in customers.iter().enumerate() {
        let address = Ipv4Addr::from(customer.address.0);
        let warnings = [
            address_warning(customer.address),
            key_warning(&customer.older.key),
            customer.newer.and_then(|newer| key_warning(&newer.key)),
            budget_warning(customer.budget.get()),
        ];
        for warning in warnings.into_iter().flatten() {
            let what = format_args!("customer {address}: {warning}");
            add(&mut found, lines.get(index).copied(), what)?;
        }
    }
    Ok(found)
}

fn customers_in(alloc: Global, document: &Table) -> Reading<Vec<WantedCustomer>>
    ensures only { IfOk result (λ customers. customers_in (table_view document.now) ≡ Ok customers.items) }
{
    let mut customers = Vec::new(alloc);
    for value in customers_at(document, CUSTOMER)? {
        let table = value.as_table();
        let table = table.ok_or(ConfigurationFault::Wanted(CUSTOMER))?;
        let customer = customer_in(alloc, table)?;
        customers.push(customer).map_err(AllocError::from)?;
    }
    Ok(customers)
}

fn customer_in(alloc: Global, table: &Table) -> Reading<WantedCustomer>
    ensures { Reads (customer_in (table_view table.now)) result }
{
    let [address, .., budget, name, newer] = CUSTOMER_KEYS;
    Ok(WantedCustomer {
        address: word_at(table, address, words::address)?,
        older: key_in(table)?,
        newer: match value_at(table, newer.0) {
            None => None,
            Some(_) => Some(key_in(table_at(table, newer)?)?),
        },
        budget: number_at(table, budget)?,
        name: optional_text(alloc, table, name)?,
    })
}

fn key_in(table: &Table) -> Reading<WantedKey>
    ensures { IsSaid (λ key. key) (key_in (table_view table.now)) result }
{
    let [_, number, algorithm, key, ..] = CUSTOMER_KEYS;
    let number = number_at(table, number)?;
    let algorithm = word_at(table, algorithm, words::algorithm)?;
    let key = word_at(table, key, |word| words::key(algorithm, word))?;
    Ok(WantedKey { number, key })
}

fn are_distinct(alloc: Global, customers: &[WantedCustomer]) -> Result<bool, AllocError>
    ensures { IfOk result (λ are. IsTrue are → AreDistinct customers.now) }
{
    let addresses = customers.iter().map(|it| u32::from_be_bytes(it.address.0));
    Ok(no_two_alike(addresses.collect(alloc)?)? && no_two_alike(key_numbers(alloc, customers)?)?)
}

fn key_numbers(alloc: Global, customers: &[WantedCustomer]) -> Result<Vec<u32>, AllocError>
    ensures { IfOk result (λ numbers. numbers.items ≡ key_numbers customers.now) }
{
    let olders = customers.iter().map(|it| u32::from(it.older.number.get()));
    let newers = customers
        .iter()
        .filter_map(|it| it.newer.map(|key| u32::from(key.number.get())));
    olders.chain(newers).collect(alloc)
}

fn no_two_alike(mut numbers: Vec<u32>) -> Result<bool, AllocError>
    ensures { IfOk result (λ are. IsTrue are → IsDistinct nat_eq numbers.items) }
{
    numbers.sort()?;
    Ok(numbers.is_sorted_by(|one, next| one < next))
}

/// Whether keys are written, which are secrets.
#[derive(Clone, Copy, Debug, PartialEq, Eq)]
pub enum KeyLines {
    Written,
    LeftOut,
}

/// Writes a customer as `read_wanted` reads it, which wants its keys, and an empty line behind it.
pub fn write_wanted<W: Write>(
    out: &mut W,
    customer: &WantedCustomer,
    keys: KeyLines,
) -> io::Result<()> {
    writeln!(out, "[[customer]]")?;
    if let Some(name) = &customer.name {
        write!(out, "name = \"")?;
        for character in name.as_str().chars() {
            if matches!(character, '"' | '\\') {
                write!(out, "\\")?;
            }
            write!(out, "{character}")?;
        }
        writeln!(out, "\"")?;
    }
    writeln!(out, "address = \"{}\"", Ipv4Addr::from(customer.address.0))?;
    write_key(out, &customer.older, keys, "\n")?;
    writeln!(out, "\nbudget = {}", customer.budget)?;
    if let Some(newer) = &customer.newer {
        write!(out, "newer = {{ ")?;
        write_key(out, newer, keys, ", ")?;
        writeln!(out, " }}")?;
    }
    writeln!(out, "")
}

fn write_key<W: Write>(
    out: &mut W,
    wanted: &WantedKey,
    keys: KeyLines,
    between: &str,
) -> io::Result<()> {
    let WantedKey { number, key } = wanted;
    let algorithm = match key.algorithm() {
        Algorithm::Md5 => "md5",
        Algorithm::Sha1 => "sha1",
    };
    write!(out, "number = {number}{between}algorithm = \"{algorithm}\"")?;
    if keys == KeyLines::LeftOut {
        return Ok(());
    }
    write!(out, "{between}key = \"")?;
    for octet in key.octets() {
        write!(out, "{octet:02x}")?;
    }
    write!(out, "\"")
}
