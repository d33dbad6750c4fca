//! The form of a register file: its keys, and the types of their values.
ghost use Rattle.std.specs.Prelude.{◌≡◌, option_map};
ghost use Rattle.toml.specs.Data.{get_member};
ghost use Rattle.toml.specs.View.{view, items_view, table_view};
ghost use Rattle.ntp_admin.specs.Form.{key_count, text_at, whole_at, top_of, entry_of};

use std::marker::Model;
use toml::{Table, Value};

/// What a register file has: the text of its reference, and its customers as they stand.
#[derive(Drop)]
pub(crate) struct Top<'a> {
    pub(crate) reference: &'a str,
    pub(crate) customers: &'a [Value],
}

/// What a customer has, as it stands.
#[derive(Drop)]
pub(crate) struct Entry<'a> {
    pub(crate) address: &'a str,
    pub(crate) number: i64,
    pub(crate) algorithm: &'a str,
    pub(crate) key: &'a str,
    pub(crate) budget: i64,
}

impl<'a> Model for Entry<'a> {
    ghost use Rattle.ntp_admin.specs.Form as form;

    ghost Value = { form.Entry };

    ghost view = { λ entry. record {
      address = entry.address.now;
      number = entry.number;
      algorithm = entry.algorithm.now;
      key = entry.key.now;
      budget = entry.budget;
    } };
}

/// The top level of a register file, if the table has that form: `reference`, a text, and perhaps `customer`, an
/// array.
pub(crate) fn top_of(table: &Table) -> Option<Top<'_>>
    ensures { option_map (λ top. record { reference = top.reference.now; customers = items_view top.customers.now }) result
        ≡ top_of (table_view table.now) }
{
    let reference = text_at(table, "reference")?;
    // The number of keys says that no further key stands there.
    match (key_count(table), value_at(table, "customer")) {
        (1, None) => Some(Top {
            reference,
            customers: &[],
        }),
        (2, Some(customers)) => Some(Top {
            reference,
            customers: customers.as_array()?.as_slice(),
        }),
        _ => None,
    }
}

/// What a customer has, if the value has that form: a table of five keys.
pub(crate) fn entry_of(customer: &Value) -> Option<Entry<'_>>
    ensures { result ≡ entry_of (view customer.now) }
{
    let table = customer.as_table()?;
    if key_count(table) != 5 {
        return None;
    }
    Some(Entry {
        address: text_at(table, "address")?,
        number: whole_at(table, "number")?,
        algorithm: text_at(table, "algorithm")?,
        key: text_at(table, "key")?,
        budget: whole_at(table, "budget")?,
    })
}

// The text at a key.
fn text_at<'a>(table: &'a Table, name: &str) -> Option<&'a str>
    ensures { option_map (λ text. text.now) result ≡ text_at name.now (table_view table.now) }
{
    value_at(table, name)?.as_str()
}

// The whole number at a key.
fn whole_at(table: &Table, name: &str) -> Option<i64>
    ensures { result ≡ whole_at name.now (table_view table.now) }
{
    value_at(table, name)?.as_integer()
}

// The value at a key.
fn value_at<'a>(table: &'a Table, name: &str) -> Option<&'a Value>
    ensures { option_map (λ value. view value.now) result ≡ get_member name.now (table_view table.now) }
{
    table.get(name)
}

// How many keys a table has.
fn key_count(table: &Table) -> usize
    ensures { result ≡ key_count (table_view table.now) }
{
    table.len()
}
