//! What a customer gets for its key.
ghost use Rattle.std.specs.Prelude.{◌≡◌, ◌↔◌, ◌<◌, ◌∷◌, ◌++◌, true, length, IfOk, IfSome, IfNone, IsTrue, Ok, false, string_bytes};
ghost use Rattle.std.specs.{Char.is_ascii_hexdigit, List.list_all};
ghost use Rattle.hex.specs.Hex.{IsBytes};
ghost use Rattle.ntp_query.specs.KeyFile.{key_in_text};
ghost use Rattle.ntp_clerk.specs.CommandText.{AreKeyOctets, IsNumber};
ghost use Rattle.ntp_clerk.specs.Grants.{chrony_algorithm, chrony_key, chrony_server, is_text, is_text_octet, key_word, ntpsec_key};

use crate::command_text::{address_word, algorithm_word, octet_digits};
use crate::seen::Dotted;
use ntp_mac::{Algorithm, Key};
use ntp_query::Server;
use ntp_service::Address;
use std::alloc::{AllocError, Global};
use std::num::NonZero;

/// The most octets of a key that NTPsec's key file takes as text (ntp.keys(5)).
const MOST_TEXT_OCTETS: usize = 20;

/// A key that a customer gets, and where it asks.
#[derive(Clone, Copy)]
pub struct Grant {
    /// The customer's address.
    pub customer: Address,
    /// The server; without one `SERVER` and port 123 are written.
    pub server: Option<Server>,
    /// The key's number.
    pub number: NonZero<u16>,
    /// The key, a secret.
    pub key: Key,
}

/// A key file of chrony for a customer, and behind it, in comments, the lines of `chrony.conf`, `ntp.keys` and `ntp.conf`.
pub fn customer_text(alloc: Global, grant: &Grant) -> Result<String, AllocError>
    ensures { IfOk result (λ text. key_in_text grant.now.number.value (string_bytes text) ≡ Ok grant.now.key) }
{
    let key = chrony_key(alloc, grant.number, &grant.key)?;
    let notes = notes(alloc, grant)?;
    let text = format!(in alloc; "{key}\n{notes}")?;
    Ok(text)
}

// What stands behind the key.
fn notes(alloc: Global, grant: &Grant) -> Result<String, AllocError> {
    let (customer, number) = (Dotted(grant.customer), grant.number);
    let server = match grant.server {
        Some(server) => address_word(alloc, server.address)?,
        None => String::from_str(alloc, "SERVER")?,
    };
    let port = grant.server.map_or(123, |server| server.port);
    let chrony = chrony_server(alloc, server.as_str(), port, number)?;
    let ntpsec = match grant.key.octet_count() > 10 || text_in(grant.key.octets()).is_some() {
        true => ntpsec_key(alloc, number, &grant.key)?,
        false => String::from_str(alloc, "none: its digits would be read as characters")?,
    };
    format!(in alloc;
        "\
# The line above is the key of {customer}, in the form of chrony's key file. Who has it can sign false time to you.
#
# chrony.conf:
#   keyfile /etc/chrony/chrony.keys
#   {chrony}
#
# NTPsec, ntp.keys:
#   {ntpsec}
# ntp.conf:
#   keys /etc/ntpsec/ntp.keys
#   trustedkey {number}
#   server {server} key {number} iburst
"
    )
}

// A key in chrony's key file.
#[tactic(auto, unfolding(crate::specs::Grants::chrony_key))]
fn chrony_key(alloc: Global, number: NonZero<u16>, key: &Key) -> Result<String, AllocError>
    ensures text { IfOk result (λ text. string_bytes text ≡ chrony_key number key.now) }
    ensures fits { IfOk result (λ _. IsNumber number × AreKeyOctets key.now.octets) }
{
    let algorithm = chrony_algorithm(key.algorithm());
    let word = key_word(alloc, key.octets(), "ASCII:", "HEX:")?;
    format!(in alloc; "{number} {algorithm} {word}")
}

// A key in NTPsec's key file.
#[tactic(auto, unfolding(crate::specs::Grants::ntpsec_key))]
fn ntpsec_key(alloc: Global, number: NonZero<u16>, key: &Key) -> Result<String, AllocError>
    ensures { IfOk result (λ text. string_bytes text ≡ ntpsec_key number key.now) }
{
    let algorithm = algorithm_word(key.algorithm());
    let word = key_word(alloc, key.octets(), "", "")?;
    format!(in alloc; "{number} {algorithm} {word}")
}

// A key's octets, behind one of two marks: as text, or in hexadecimal digits.
fn key_word(alloc: Global, octets: &[u8], text: &str, digits: &str) -> Result<String, AllocError>
    ensures word { IfOk result (λ word. string_bytes word ≡ key_word text.now digits.now octets.now) }
    ensures octets { IfOk result (λ _. IsBytes octets.now) }
{
    let encoded = octet_digits(alloc, octets)?;
    match text_in(octets) {
        Some(octets) => format!(in alloc; "{text}{octets}"),
        None => format!(in alloc; "{digits}{encoded}"),
    }
}

/// Whether key files read octets in two ways: ntpd reads more than 20 digits as hexadecimal ones, and chrony as characters.
pub fn is_read_two_ways(octets: &[u8]) -> bool
    ensures { IsTrue result ↔ ((20 < length octets.now) × (list_all is_ascii_hexdigit octets.now ≡ true)) }
{
    octets.len() > MOST_TEXT_OCTETS && are_digits(octets)
}

// Whether octets are hexadecimal digits.
fn are_digits(octets: &[u8]) -> bool
    ensures { result ≡ list_all is_ascii_hexdigit octets.now }
{
    octets.iter().all(|octet| octet.is_ascii_hexdigit())
}

// Octets as text, if each key file takes them as that.
fn text_in(octets: &[u8]) -> Option<&str>
    ensures text { IfSome result (λ text. (text.now ≡ octets.now) × (is_text octets.now ≡ true)) }
    ensures none { IfNone result (is_text octets.now ≡ false) }
{
    if octets.len() > MOST_TEXT_OCTETS || !are_text_octets(octets) {
        return None;
    }
    match str::from_utf8(octets) {
        Ok(text) => Some(text),
        Err(_) => None,
    }
}

// Whether octets are printable characters other than `#`, which begins a comment.
fn are_text_octets(octets: &[u8]) -> bool
    ensures { result ≡ list_all is_text_octet octets.now }
{
    octets
        .iter()
        .all(|octet| octet.is_ascii_graphic() && *octet != b'#')
}

// A server in chrony's configuration.
#[tactic(auto, unfolding(crate::specs::Grants::chrony_server))]
fn chrony_server(
    alloc: Global,
    server: &str,
    port: u16,
    number: NonZero<u16>,
) -> Result<String, AllocError>
    ensures { IfOk result (λ text. string_bytes text ≡ chrony_server server.now port number) }
{
    if port == 123 {
        return format!(in alloc; "server {server} key {number} iburst xleave");
    }
    format!(in alloc; "server {server} port {port} key {number} iburst xleave")
}

// The word for an algorithm in chrony's key files.
fn chrony_algorithm(algorithm: Algorithm) -> &'static str
    ensures { result.now ≡ chrony_algorithm algorithm }
{
    match algorithm {
        Algorithm::Md5 => "MD5",
        Algorithm::Sha1 => "SHA1",
    }
}
