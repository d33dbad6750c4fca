//! How the lines of a commands file are written: commands, names of customers, and records of orders.
ghost use Rattle.std.specs.Prelude.{◌≡◌, ◌++◌, ◌∷◌, [], List, ℕ, Some, IfOk, IfSome, codes, option_map, string_bytes, true};
ghost use Rattle.hex.specs.Hex.{encode_lower, IsBytes};
ghost use Rattle.ntp_admin.specs.{Answers.line_feed, Spells.is_passed_over, Words.address_text, Words.number_behind, Words.parts};
ghost use Rattle.ntp_clerk.specs.CommandText.{algorithm_text, budget_named, command_text, key_behind, key_digits, key_named, name_in, AreKeyOctets, IsAddress, IsCommand, IsName, IsNumber, WritesCommand};

use ntp_admin::words;
use ntp_mac::{Algorithm, Key};
use ntp_service::{Address, Command};
use std::alloc::{AllocError, Global};
use std::num::NonZero;

/// The line of a command, with its line feed and the octets of its key: what is read from it is the command.
pub fn command_line(alloc: Global, command: &Command) -> Result<String, AllocError>
    ensures { IfOk result (λ text. WritesCommand (string_bytes text) command.now) }
{
    let digits = key_digits(alloc, command)?;
    let text = text_of(alloc, command, digits.as_str())?;
    let line = format!(in alloc; "{text}\n")?;
    Ok(line)
}

// The octets of the key that a command names, in hexadecimal digits; nothing where it names none.
fn key_digits(alloc: Global, command: &Command) -> Result<String, AllocError>
    ensures digits { IfOk result (λ digits. string_bytes digits ≡ key_digits command.now) }
    ensures octets { IfSome (key_named command.now) (λ key. AreKeyOctets key.octets) }
{
    match key_named(command) {
        Some(key) => octet_digits(alloc, key.octets()),
        None => Ok(String::new(alloc)),
    }
}

// Octets in hexadecimal digits.
pub(crate) fn octet_digits(alloc: Global, octets: &[u8]) -> Result<String, AllocError>
    ensures digits { IfOk result (λ digits. string_bytes digits ≡ encode_lower octets.now) }
    ensures octets { IsBytes octets.now }
{
    hex::encode(alloc, octets)
}

/// A command as anybody may see it: `KEY` stands in the place of the key. The memory for it is taken from `alloc`.
pub fn command_shown(alloc: Global, command: &Command) -> Result<String, AllocError>
    ensures { IfOk result (λ text. string_bytes text ≡ command_text (codes "KEY") command.now) }
{
    text_of(alloc, command, "KEY")
}

// The text of a command, with this word for its key.
#[tactic(auto, unfolding(crate::specs::CommandText::command_text))]
fn text_of(alloc: Global, command: &Command, key_word: &str) -> Result<String, AllocError>
    ensures text { IfOk result (λ text. string_bytes text ≡ command_text key_word.now command.now) }
    ensures command { IfOk result (λ _. IsCommand command.now) }
{
    let verb = command.word();
    let address = address_word(alloc, command.address())?;
    let number = number_behind(alloc, command.number_named())?;
    let key = key_behind(alloc, key_named(command), key_word)?;
    let budget = number_behind(alloc, budget_named(command))?;
    format!(in alloc; "{verb} {address}{number}{key}{budget}")
}

/// The budget that a command names, if it names one.
pub fn budget_named(command: &Command) -> Option<NonZero<u16>>
    ensures { result ≡ budget_named command.now }
{
    match command {
        Command::Enrol { budget, .. } | Command::Budget { budget, .. } => Some(*budget),
        _ => None,
    }
}

/// The key that a command names, if it names one.
pub fn key_named(command: &Command) -> Option<Key>
    ensures { result ≡ key_named command.now }
{
    match command {
        Command::Enrol { key, .. } | Command::Rollover { key, .. } => Some(*key),
        _ => None,
    }
}

// The word of an address.
#[tactic(auto, unfolding(ntp_admin::specs::Words::address_text))]
pub(crate) fn address_word(alloc: Global, address: Address) -> Result<String, AllocError>
    ensures word { IfOk result (λ text. string_bytes text ≡ address_text address) }
    ensures octets { IsAddress address }
{
    let Address([a, b, c, d]) = address;
    format!(in alloc; "{a}.{b}.{c}.{d}")
}

// A number with a space before it, where there is one.
fn number_behind(alloc: Global, number: Option<NonZero<u16>>) -> Result<String, AllocError>
    ensures text { IfOk result (λ text. string_bytes text ≡ number_behind number) }
    ensures bits { IfSome number IsNumber }
{
    match number {
        Some(number) => format!(in alloc; " {number}"),
        None => Ok(String::new(alloc)),
    }
}

// A key's algorithm and this word for the key, with a space before each, where there is one.
fn key_behind(alloc: Global, key: Option<Key>, key_word: &str) -> Result<String, AllocError>
    ensures { IfOk result (λ text. string_bytes text ≡ key_behind key_word.now key) }
{
    match key {
        Some(key) => {
            let algorithm = algorithm_word(key.algorithm());
            format!(in alloc; " {algorithm} {key_word}")
        }
        None => Ok(String::new(alloc)),
    }
}

/// The word of an algorithm.
pub fn algorithm_word(algorithm: Algorithm) -> &'static str
    ensures { result.now ≡ algorithm_text algorithm }
{
    match algorithm {
        Algorithm::Md5 => "md5",
        Algorithm::Sha1 => "sha1",
    }
}

/// The line that says a name, with its line feed: what is read from it is a name of one line, and its address.
pub fn name_line(alloc: Global, address: Address, name: &str) -> Result<String, AllocError>
    ensures { IsName name.now → IfOk result (λ text. (line : List ℕ) × (parts 10 (string_bytes text) ≡ line ∷ [] ∷ [])
        × (name_in line ≡ Some (address, name.now))) }
{
    let word = address_word(alloc, address)?;
    let line = format!(in alloc; "# name {word} {name}\n")?;
    Ok(line)
}

/// The name that a line without its line feed says, behind the address that it names.
pub fn name_in(line: &str) -> Option<(Address, &str)>
    ensures { option_map (λ said. (said.0, said.1.now)) result ≡ name_in line.now }
{
    let (word, name) = line.strip_prefix("# name ")?.split_once(' ')?;
    if name.is_empty() {
        return None;
    }
    let address = words::address(word)?;
    Some((address, name))
}

/// The line in front of those of an order, with its line feed: when it was given, and by whom. The daemon passes it over.
pub fn record_line(alloc: Global, time: &str, user: &str) -> Result<String, AllocError>
    ensures text { IfOk result (λ text. string_bytes text ≡ codes "# " ++ (time.now ++ (codes " " ++ (user.now ++ line_feed)))) }
    ensures line { IsName time.now → IsName user.now → IfOk result (λ text. (line : List ℕ)
        × (parts 10 (string_bytes text) ≡ line ∷ [] ∷ []) × (is_passed_over line ≡ true)) }
{
    let line = format!(in alloc; "# {time} {user}\n")?;
    Ok(line)
}
