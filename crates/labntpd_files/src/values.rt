//! What stands at a key of a table: a value that is wanted there, or a fault.
ghost use Rattle.std.specs.Prelude.{◌≡◌, ◌≤◌, false, option_map, IfOk, IfSome};
ghost use Rattle.std.specs.{Char.is_control, Fn.FnOnceReturnsAt, List.list_any, Result.result_ok, Str.chars};
ghost use Rattle.toml.specs.Data.{no_items, as_bool, as_str, as_table, as_array};
ghost use Rattle.toml.specs.View.{view, table_view, items_view};
ghost use Rattle.ntp_admin.specs.Words.{address_in};
ghost use Rattle.labntpd_files.specs.Keys.{row};
ghost use Rattle.labntpd_files.specs.Settings.{required, optional, or_default, count_in, wrong_by, said_by, needed, allowed, IsSaid, IsRead, Reads};
ghost use Rattle.labntpd_files.specs.Values.{endpoint_in, listen_in, path_in, text_as, text_of, is_name, whole_of, number_of, units_of, count_of, IsWithin};

use crate::ConfigurationFault::{Missing, Wanted};
use crate::fault::Reading;
use crate::setting::{Kind, is_fixed, value_at};
use crate::{ConfigurationFault, Endpoint, Listen, Setting, Text};
use ntp_admin::words;
use ntp_mac::Algorithm;
use ntp_service::Address;
use std::alloc::Global;
use std::num::{self, NonZero};
use toml::{Table, Value};

impl Setting {
    // What was read of the value at this key, if one stood there, has to stand there.
    fn required<T>(self, read: Option<Option<T>>) -> Reading<T>
        ensures { IsSaid (λ said. said) (needed (row self) read) result }
    {
        read.ok_or(Missing(self))?.ok_or(Wanted(self))
    }

    fn optional<T>(self, read: Option<Option<T>>) -> Reading<Option<T>>
        ensures { IsSaid (λ said. said) (allowed (row self) read) result }
    {
        match read {
            None => Ok(None),
            Some(read) => Ok(Some(read.ok_or(Wanted(self))?)),
        }
    }
}

fn text_at(table: &Table, setting: Setting) -> Reading<&str>
    ensures { IsSaid (λ text. text.now) (required (row setting) as_str (table_view table.now)) result }
{
    setting.required(value_at(table, setting.0).map(|value| value.as_str()))
}

/// What `read` reads of a text that has to stand there.
pub(crate) fn word_at<T, F: FnOnce(&str) -> Option<T>>(
    table: &Table,
    setting: Setting,
    read: F,
) -> Reading<T>
    requires { F.IsAlwaysCallable read }
    ensures { IsRead (FnOnceReturnsAt F.FnOnce read) (row setting) (required (row setting) as_str (table_view table.now)) result }
{
    read(text_at(table, setting)?).ok_or(Wanted(setting))
}

pub(crate) fn table_at(table: &Table, setting: Setting) -> Reading<&Table>
    ensures { IsSaid (λ inner. table_view inner.now) (required (row setting) as_table (table_view table.now)) result }
{
    setting.required(value_at(table, setting.0).map(|value| value.as_table()))
}

/// The path of a file, which is not empty and has to stand there.
pub(crate) fn path_text(alloc: Global, table: &Table, setting: Setting) -> Reading<Text>
    ensures { Reads (required (row setting) (text_as (text_of setting.1)) (table_view table.now)) result }
{
    let path = value_at(table, setting.0).map(|value| text_of(value, setting.1));
    Ok(Text::of(alloc, setting.required(path)?)?)
}

/// The path at a key, where one stands there.
pub fn path_at<'a>(table: &'a Table, key: &str) -> Option<&'a str>
    ensures { option_map (λ path. path.now) result ≡ result_ok (required (key.now, Kind.Path) (text_as path_in) (table_view table.now)) }
{
    text_of(value_at(table, key)?, Kind::Path)
}

/// A customer's name, or else the path of a file, that may be left out.
pub(crate) fn optional_text(alloc: Global, table: &Table, setting: Setting) -> Reading<Option<Text>>
    ensures { Reads (optional (row setting) (text_as (text_of setting.1)) (table_view table.now)) result }
{
    let text = value_at(table, setting.0).map(|value| text_of(value, setting.1));
    let text = setting.optional(text)?.map(|text| Text::of(alloc, text));
    Ok(text.transpose()?)
}

// The text of a value, if it is a customer's name, or else a path.
fn text_of(value: &Value, kind: Kind) -> Option<&str>
    ensures { option_map (λ text. text.now) result ≡ text_as (text_of kind) (view value.now) }
{
    let text = value.as_str()?;
    match kind {
        Kind::Name => is_name(text),
        _ => !text.is_empty(),
    }
    .then_some(text)
}

/// An address that may be left out.
pub(crate) fn optional_address(table: &Table, setting: Setting) -> Reading<Option<Address>>
    ensures { IsSaid (λ found. found) (optional (row setting) (text_as address_in) (table_view table.now)) result }
{
    setting.optional(value_at(table, setting.0).map(|value| words::address(value.as_str()?)))
}

pub(crate) fn boolean_at(table: &Table, setting: Setting) -> Reading<bool>
    ensures { IsSaid (λ said. said) (or_default false (optional (row setting) as_bool (table_view table.now))) result }
{
    let said = value_at(table, setting.0).map(|value| value.as_bool());
    Ok(setting.optional(said)?.unwrap_or(false))
}

/// A count of octets, or of units of time, that may be left out.
pub(crate) fn count_at(table: &Table, setting: Setting) -> Reading<Option<u64>>
    ensures value { IsSaid (λ found. found) (count_in (row setting) (table_view table.now)) result }
    ensures range { IfOk result (λ found. IfSome found (IsWithin setting.1)) }
{
    setting.optional(value_at(table, setting.0).map(|value| count_of(value, setting.1)))
}

/// A count, or what holds where none stands there.
pub(crate) fn count_or(table: &Table, setting: Setting, default: u64) -> Reading<u64>
    requires { IsWithin setting.1 default }
    ensures value { IsSaid (λ count. count) (or_default default (count_in (row setting) (table_view table.now))) result }
    ensures range { IfOk result (IsWithin setting.1) }
{
    Ok(count_at(table, setting)?.unwrap_or(default))
}

/// A key number or a budget, from 1 to 65,535.
pub(crate) fn number_at(table: &Table, setting: Setting) -> Reading<NonZero<u16>>
    ensures { IsSaid (λ number. number) (required (row setting) number_of (table_view table.now)) result }
{
    setting.required(value_at(table, setting.0).map(number_of))
}

pub(crate) fn customers_at(document: &Table, setting: Setting) -> Reading<&[Value]>
    ensures { IsSaid (λ values. items_view values.now) (or_default no_items (optional (row setting) as_array (table_view document.now))) result }
{
    let values = value_at(document, setting.0).map(|value| Some(value.as_array()?.as_slice()));
    Ok(setting.optional(values)?.unwrap_or(&[]))
}

/// What is wrong at a key, whatever is wrong at others. Every algorithm takes the same keys.
pub(crate) fn wrong_at(table: &Table, setting: Setting) -> Option<ConfigurationFault>
    ensures { option_map said_by result ≡ wrong_by setting.1 (row setting) (table_view table.now) }
{
    let text = value_at(table, setting.0).map(|value| text_of(value, setting.1));
    match setting.1 {
        Kind::Listen => word_at(table, setting, listen_in).err(),
        Kind::Source if is_fixed(table) => None,
        Kind::Source => word_at(table, setting, endpoint_in).err(),
        Kind::Path => setting.required(text).err(),
        Kind::OptionalPath | Kind::Name => setting.optional(text).err(),
        Kind::Octets | Kind::Seconds(..) => count_at(table, setting).err(),
        Kind::Boolean => boolean_at(table, setting).err(),
        Kind::Reference => word_at(table, setting, words::reference).err(),
        Kind::Number => number_at(table, setting).err(),
        Kind::Algorithm => word_at(table, setting, words::algorithm).err(),
        Kind::Address => word_at(table, setting, words::address).err(),
        Kind::OptionalAddress => optional_address(table, setting).err(),
        Kind::Key => word_at(table, setting, |word| words::key(Algorithm::Sha1, word)).err(),
        Kind::OptionalTable if value_at(table, setting.0).is_none() => None,
        Kind::Table | Kind::OptionalTable => table_at(table, setting).err(),
        Kind::Customers => customers_at(table, setting).err(),
    }
}

/// Where datagrams are received: `inherited`, or an address with a port.
pub(crate) fn listen_in(text: &str) -> Option<Listen>
    ensures { result ≡ listen_in text.now }
{
    match text {
        "inherited" => Some(Listen::Inherited),
        _ => Some(Listen::Bound(endpoint_in(text)?)),
    }
}

pub(crate) fn endpoint_in(text: &str) -> Option<Endpoint>
    ensures { result ≡ endpoint_in text.now }
{
    let (address, port) = text.split_once(':')?;
    Some(Endpoint {
        address: words::address(address)?,
        port: words::number(port)?,
    })
}

/// Whether a text may be the name of a customer: 1 to 200 octets without control characters.
pub fn is_name(text: &str) -> bool
    ensures { result ≡ is_name text.now }
{
    !text.is_empty() && text.len() <= 200 && !has_control(text)
}

fn has_control(text: &str) -> bool
    ensures { result ≡ list_any is_control (chars text.now) }
{
    text.chars().any(|character| character.is_control())
}

fn number_of(value: &Value) -> Option<NonZero<u16>>
    ensures { result ≡ number_of (view value.now) }
{
    let whole = count_of(value, Kind::Number)?;
    NonZero::<u16>::new(whole as u16)
}

fn count_of(value: &Value, kind: Kind) -> Option<u64>
    ensures value { result ≡ count_of kind (view value.now) }
    ensures range { IfSome result (IsWithin kind) }
{
    let (count, least, most) = match kind {
        Kind::Number => (u128::from(whole_of(value)?), 1, 65_535),
        // The kernel doubles the size that it is asked for, and counts in 31 bits.
        Kind::Octets => (u128::from(whole_of(value)?), 65_536, 1_073_741_823),
        Kind::Seconds(units, least, most) => (units_of(value, units)?, least, most),
        _ => return None,
    };
    let count = u64::try_from(count).ok()?;
    (least <= count && count <= most).then_some(count)
}

fn whole_of(value: &Value) -> Option<u64>
    ensures { result ≡ whole_of (view value.now) }
{
    u64::try_from(value.as_integer()?).ok()
}

// The units of a number of seconds. A float is rounded, and one outside of 64 bits gives 0 or 2^64 - 1: neither is in a range.
fn units_of(value: &Value, units: u32) -> Option<u128>
    ensures { result ≡ units_of units (view value.now) }
{
    match value {
        Value::Float(seconds) => {
            let count = (*seconds * f64::from(units)).round();
            Some(u128::from(num::saturating_f64_to_u64(count)))
        }
        _ => Some(u128::from(whole_of(value)?) * u128::from(units)),
    }
}
