//! Register files to commands and to a reference state.
ghost use Rattle.std.specs.Prelude.{◌≡◌, ◌⊎◌, IfOk, IfErr};
ghost use Rattle.toml.specs.{View.view, View.items_view, View.table_view, Parse.parse_document};
ghost use Rattle.ntp_admin.specs.RegisterFile.{register_in, state_in, customers_in, customer_in};
ghost use Rattle.ntp_admin.specs.RegisterFile.{enrolment_command, non_zero_whole};

use crate::form::{Entry, entry_of, top_of};
use crate::{RegisterFault, words};
use ntp_reply::Reference;
use ntp_service::{Command, LineFault};
use std::alloc::Global;
use std::num::NonZero;
use toml::{Table, Value};

/// The commands that a register file says: an enrolment for each customer, in file order. The reference is looked at
/// only as a text. The fault is the first in this order: the text, the top level, then each customer's form and its
/// values; or want of memory.
pub fn read_register(alloc: Global, text: &str) -> Result<Vec<Command>, RegisterFault>
    ensures only { IfOk result (λ commands. register_in text.now ≡ Ok commands.items) }
    ensures fault { IfErr result (λ fault. (fault ≡ RegisterFault.NoMemory) ⊎ (register_in text.now ≡ Err fault)) }
{
    let document = document(alloc, text)?;
    let top = top_of(&document).ok_or(RegisterFault::Shape)?;
    customers_in(alloc, top.customers)
}

/// The reference state that a register file says. No customer is looked at. The fault is the first in this order: the
/// text, the top level, the reference; or want of memory.
pub fn read_reference(alloc: Global, text: &str) -> Result<Reference, RegisterFault>
    ensures only { IfOk result (λ reference. state_in text.now ≡ Ok reference) }
    ensures fault { IfErr result (λ fault. (fault ≡ RegisterFault.NoMemory) ⊎ (state_in text.now ≡ Err fault)) }
{
    let document = document(alloc, text)?;
    let top = top_of(&document).ok_or(RegisterFault::Shape)?;
    words::reference(top.reference).ok_or(RegisterFault::Reference)
}

// The document that a text is.
fn document(alloc: Global, text: &str) -> Result<Table, RegisterFault>
    ensures only { IfOk result (λ table. parse_document text.now ≡ Some (table_view table)) }
    ensures fault { IfErr result (λ fault. (fault ≡ RegisterFault.NoMemory)
        ⊎ ((parse_document text.now ≡ None) × (fault ≡ RegisterFault.Toml))) }
{
    toml::table_from_str(alloc, text).map_err(|error| match error.is_memory() {
        true => RegisterFault::NoMemory,
        false => RegisterFault::Toml,
    })
}

// The enrolments of customers, in file order.
fn customers_in(alloc: Global, customers: &[Value]) -> Result<Vec<Command>, RegisterFault>
    ensures only { IfOk result (λ commands. customers_in 0 (items_view customers.now) ≡ Ok commands.items) }
    ensures fault { IfErr result (λ fault. (fault ≡ RegisterFault.NoMemory) ⊎ (customers_in 0 (items_view customers.now) ≡ Err fault)) }
{
    let mut commands = Vec::new(alloc);
    for (place, customer) in customers.iter().enumerate() {
        let command = customer_in(place as u64, customer)?;
        commands.push(command).map_err(|_| RegisterFault::NoMemory)?;
    }
    Ok(commands)
}

/// The enrolment of the customer at a place, counted from 0, or the first fault in it: its form, then its values.
pub fn customer_in(place: u64, customer: &Value) -> Result<Command, RegisterFault>
    ensures { result ≡ customer_in place (view customer.now) }
{
    let entry = entry_of(customer).ok_or(RegisterFault::Shape)?;
    enrolment_command(&entry).map_err(|fault| RegisterFault::Entry { place, fault })
}

// The enrolment that an entry orders.
fn enrolment_command(entry: &Entry<'_>) -> Result<Command, LineFault>
    ensures { result ≡ enrolment_command entry.now }
{
    let address = words::address(entry.address).ok_or(LineFault::Address)?;
    let number = non_zero_whole(entry.number).ok_or(LineFault::Number)?;
    let algorithm = words::algorithm(entry.algorithm).ok_or(LineFault::Algorithm)?;
    let key = words::key(algorithm, entry.key).ok_or(LineFault::KeyText)?;
    let budget = non_zero_whole(entry.budget).ok_or(LineFault::Budget)?;
    Ok(Command::Enrol {
        address,
        number,
        key,
        budget,
    })
}

// A key number or a budget.
fn non_zero_whole(whole: i64) -> Option<NonZero<u16>>
    ensures { result ≡ non_zero_whole whole }
{
    let number = u16::try_from(whole).ok()?;
    NonZero::<u16>::new(number)
}
