//! Which server is asked.
ghost use Rattle.std.specs.Prelude.{◌≡◌, Some, None, MatchOption};
ghost use Rattle.std.specs.{Char.is_ascii_alphabetic, List.list_any};
ghost use Rattle.ntp_query.specs.Server.{is_host, host_in, server_in};

use ntp_admin::words;
use ntp_service::Address;
use std::num::NonZero;

/// The UDP port of NTP (RFC 5905, 16).
pub const NTP_PORT: u16 = 123;

/// The server that is asked.
#[derive(Clone, Copy)]
pub struct Server {
    /// Its IPv4 address.
    pub address: Address,
    /// Its UDP port.
    pub port: u16,
}

/// The host and the UDP port that a word names: `HOST:PORT`, or `HOST` for port 123 (RFC 5905, 16). A host is an address, or a
/// name with a letter in it (RFC 1123, 2.1).
pub fn host_in(word: &str) -> Option<(&str, u16)>
    ensures { MatchOption result (host_in word.now ≡ None) (λ it. host_in word.now ≡ Some (it.0.now, it.1)) }
{
    let (host, port) = match word.split_once(':') {
        None => (word, NTP_PORT),
        Some((host, port)) => (host, words::number(port)?.get()),
    };
    is_host(host).then_some((host, port))
}

// Whether a word is an address or a name.
fn is_host(word: &str) -> bool
    ensures { result ≡ is_host word.now }
{
    words::address(word).is_some() || has_letter(word.as_bytes())
}

// Whether a letter is among some octets.
fn has_letter(octets: &[u8]) -> bool
    ensures { result ≡ list_any is_ascii_alphabetic octets.now }
{
    octets.iter().any(|octet| octet.is_ascii_alphabetic())
}

/// The server that a word names: `ADDRESS:PORT`, or `ADDRESS` for port 123 (RFC 5905, 16).
pub fn server_in(word: &str) -> Option<Server>
    ensures { result ≡ server_in word.now }
{
    let (host, port) = host_in(word)?;
    Some(Server {
        address: words::address(host)?,
        port,
    })
}
