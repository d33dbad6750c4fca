//! Lines to commands and events.
ghost use Rattle.std.specs.Prelude.{◌≡◌, ◌≢◌, ◌⊎◌, IfOk, IfErr, ◌∷◌, Err, Some, codes, slice_get};
ghost use Rattle.ntp_admin.specs.Words.{words};
ghost use Rattle.ntp_admin.specs.Spells.{is_passed_over, enrol_in, revoke_in, new_budget_in, rollover_in, retire_in, command_in, datagram_in, departed_in, event_in};

use crate::parts::TextParts;
use crate::words;
use ntp_service::{Command, Event, LineFault};
use std::alloc::Allocator;

/// Whether a line is no event and no command: it is empty, or begins with `#`.
pub fn is_passed_over(line: &[u8]) -> bool
    ensures { result ≡ is_passed_over line.now }
{
    matches!(line, [] | [b'#', ..])
}

/// The command that a line says. A line is words with one space between each two, in one of these forms:
///
/// ```text
/// enrol ADDRESS NUMBER ALGORITHM KEY BUDGET
/// revoke ADDRESS
/// budget ADDRESS BUDGET
/// rollover ADDRESS NUMBER ALGORITHM KEY
/// retire ADDRESS NUMBER
/// ```
///
/// The fault is the first in this order: the first word, the number of words, then the words from left to
/// right.
#[tactic(auto, unfolding(crate::specs::Spells::command_in))]
pub fn parse_command(line: &str) -> Result<Command, LineFault>
    ensures only { IfOk result (λ command. command_in (words line.now) ≡ Ok command) }
    ensures fault { IfErr result (λ fault. command_in (words line.now) ≡ Err fault) }
{
    let mut words = TextParts::new(line, ' ');
    let first = words.next().ok_or(LineFault::Word)?;
    command(first, words)
}

/// The event that a line says: a command, or one of the forms
///
/// ```text
/// datagram ADDRESS RECEIPT TRANSMIT REFERENCE OCTETS
/// departed ADDRESS RECEIVE MOMENT
/// ```
///
/// RECEIVE is a stamp, RECEIPT, TRANSMIT and MOMENT are moments. The fault is the first in the order of
/// `parse_command`, or want of memory, and that of a datagram alone.
#[tactic(auto, unfolding(crate::specs::Spells::event_in, crate::specs::Spells::command_in))]
pub fn parse_event<A: Allocator + Copy>(alloc: A, line: &str) -> Result<Event<A>, LineFault>
    ensures only { IfOk result (λ event. event_in (words line.now) ≡ Ok event) }
    ensures fault { IfErr result (λ fault. (fault ≡ LineFault.NoMemory) ⊎ (event_in {A = A} (words line.now) ≡ Err fault)) }
    ensures command { (c : Command) → command_in (words line.now) ≡ Ok c → result ≡ Ok (Event.Command c) }
    ensures memory { result ≡ Err LineFault.NoMemory → slice_get (words line.now) 0 ≡ Some (codes "datagram") }
{
    let mut words = TextParts::new(line, ' ');
    let first = words.next().ok_or(LineFault::Word)?;
    match first {
        "datagram" => datagram(alloc, words),
        "departed" => departure(words),
        _ => Ok(Event::Command(command(first, words)?)),
    }
}

// The command that begins with a word.
#[tactic(auto, unfolding(crate::specs::Spells::command_in))]
fn command(first: &str, others: TextParts<'_>) -> Result<Command, LineFault>
    ensures command { result ≡ command_in (first.now ∷ others.entry) }
    ensures memory { result ≢ Err LineFault.NoMemory }
{
    match first {
        "enrol" => enrolment(others),
        "revoke" => revocation(others),
        "budget" => new_budget(others),
        "rollover" => rollover(others),
        "retire" => retirement(others),
        _ => Err(LineFault::Word),
    }
}

// What stands behind `enrol`.
fn enrolment(mut words: TextParts<'_>) -> Result<Command, LineFault>
    ensures command { result ≡ enrol_in words.entry }
    ensures memory { result ≢ Err LineFault.NoMemory }
{
    let address = words.word()?;
    let number = words.word()?;
    let algorithm = words.word()?;
    let key = words.word()?;
    let budget = words.word()?;
    words.end()?;
    let address = words::address(address).ok_or(LineFault::Address)?;
    let number = words::number(number).ok_or(LineFault::Number)?;
    let algorithm = words::algorithm(algorithm).ok_or(LineFault::Algorithm)?;
    let key = words::key(algorithm, key).ok_or(LineFault::KeyText)?;
    let budget = words::number(budget).ok_or(LineFault::Budget)?;
    Ok(Command::Enrol {
        address,
        number,
        key,
        budget,
    })
}

// What stands behind `revoke`.
fn revocation(mut words: TextParts<'_>) -> Result<Command, LineFault>
    ensures command { result ≡ revoke_in words.entry }
    ensures memory { result ≢ Err LineFault.NoMemory }
{
    let address = words.word()?;
    words.end()?;
    let address = words::address(address).ok_or(LineFault::Address)?;
    Ok(Command::Revoke { address })
}

// What stands behind `budget`.
fn new_budget(mut words: TextParts<'_>) -> Result<Command, LineFault>
    ensures command { result ≡ new_budget_in words.entry }
    ensures memory { result ≢ Err LineFault.NoMemory }
{
    let address = words.word()?;
    let budget = words.word()?;
    words.end()?;
    let address = words::address(address).ok_or(LineFault::Address)?;
    let budget = words::number(budget).ok_or(LineFault::Budget)?;
    Ok(Command::Budget { address, budget })
}

// What stands behind `rollover`.
fn rollover(mut words: TextParts<'_>) -> Result<Command, LineFault>
    ensures command { result ≡ rollover_in words.entry }
    ensures memory { result ≢ Err LineFault.NoMemory }
{
    let address = words.word()?;
    let number = words.word()?;
    let algorithm = words.word()?;
    let key = words.word()?;
    words.end()?;
    let address = words::address(address).ok_or(LineFault::Address)?;
    let number = words::number(number).ok_or(LineFault::Number)?;
    let algorithm = words::algorithm(algorithm).ok_or(LineFault::Algorithm)?;
    let key = words::key(algorithm, key).ok_or(LineFault::KeyText)?;
    Ok(Command::Rollover {
        address,
        number,
        key,
    })
}

// What stands behind `retire`.
fn retirement(mut words: TextParts<'_>) -> Result<Command, LineFault>
    ensures command { result ≡ retire_in words.entry }
    ensures memory { result ≢ Err LineFault.NoMemory }
{
    let address = words.word()?;
    let number = words.word()?;
    words.end()?;
    let address = words::address(address).ok_or(LineFault::Address)?;
    let number = words::number(number).ok_or(LineFault::Number)?;
    Ok(Command::Retire { address, number })
}

// What stands behind `datagram`.
fn datagram<A: Allocator + Copy>(alloc: A, mut words: TextParts<'_>) -> Result<Event<A>, LineFault>
    ensures only { IfOk result (λ event. datagram_in words.entry ≡ Ok event) }
    ensures fault { IfErr result (λ fault. (fault ≡ LineFault.NoMemory) ⊎ (datagram_in {A = A} words.entry ≡ Err fault)) }
{
    let address = words.word()?;
    let receipt = words.word()?;
    let transmit = words.word()?;
    let reference = words.word()?;
    let octets = words.word()?;
    words.end()?;
    Ok(Event::Datagram {
        address: words::address(address).ok_or(LineFault::Address)?,
        receipt: words::moment(receipt).ok_or(LineFault::Moment)?,
        transmit: words::moment(transmit).ok_or(LineFault::Moment)?,
        reference: words::reference(reference).ok_or(LineFault::Reference)?,
        octets: words::octets(alloc, octets)?,
    })
}

// What stands behind `departed`.
fn departure<A: Allocator>(mut words: TextParts<'_>) -> Result<Event<A>, LineFault>
    ensures event { result ≡ departed_in words.entry }
    ensures memory { result ≢ Err LineFault.NoMemory }
{
    let address = words.word()?;
    let receive = words.word()?;
    let moment = words.word()?;
    words.end()?;
    let address = words::address(address).ok_or(LineFault::Address)?;
    let receive = words::stamp(receive).ok_or(LineFault::Stamp)?;
    let moment = words::moment(moment).ok_or(LineFault::Moment)?;
    Ok(Event::Departed {
        address,
        receive,
        moment,
    })
}
