//! The digits of a key: what is wrong with them, and what stands at a place, shown without them wherever they stand by mistake.
ghost use Rattle.std.specs.Prelude.{◌≡◌, ◌<◌, ◌==◌, not, length, IfSome};
ghost use Rattle.std.specs.{Char.is_ascii_digit, Char.is_ascii_hexdigit, List.filter, List.list_all, List.position_from};
ghost use Rattle.labntpd_files.specs.{KeyText.key_in_file, KeyText.key_wrong, Shown.is_plain};

use crate::setting::Kind;
use ntp_admin::words;
use ntp_mac::{Algorithm, Key};
use std::alloc::{AllocError, Global};
use std::fmt;
use thiserror::Error;
use toml::Value;

/// What is wrong with the digits of a key. It has none of them.
#[derive(Clone, Copy, Debug, PartialEq, Eq, Drop, Error)]
pub enum KeyWrong {
    /// The octet in this column, counted from 1, begins no hexadecimal digit.
    #[error("octet {0} is no digit")]
    NoDigit(u64),
    /// The number of digits, which is none at all, too many, or odd.
    #[error("{0} digits stand there")]
    Digits(u64),
}

/// The key for an algorithm in the text of a key file: a line of 2 to 64 hexadecimal digits, an even number, with a line feed or without.
pub fn key_in_file(text: &str, algorithm: Algorithm) -> Option<Key>
    ensures { result ≡ key_in_file text.now algorithm }
{
    words::key(algorithm, text.strip_suffix('\n').unwrap_or(text))
}

/// What is wrong with the word of a key: the first octet that is no hexadecimal digit, else the number of digits.
pub fn key_wrong(word: &str) -> Option<KeyWrong>
    ensures { result ≡ key_wrong word.now }
{
    let (octets, count) = (word.as_bytes(), word.len());
    match first_other(octets) {
        Some(place) => Some(KeyWrong::NoDigit(place as u64 + 1)),
        None if count == 0 || count > 64 || count % 2 == 1 => Some(KeyWrong::Digits(count as u64)),
        None => None,
    }
}

fn first_other(octets: &[u8]) -> Option<usize>
    ensures first { result ≡ position_from (λ octet. not (is_ascii_hexdigit octet)) 0 octets.now }
    ensures within { IfSome result (λ place. place < length octets.now) }
{
    octets.iter().position(|octet| !octet.is_ascii_hexdigit())
}

/// A word, shown only where it cannot be a key.
#[derive(Clone, Copy)]
pub struct ShownWord<'a>(pub &'a str);

impl<'a> fmt::Display for ShownWord<'a> {
    fn fmt<W: fmt::Write>(&self, f: &mut fmt::Formatter<W>) -> fmt::Result {
        match self.0 {
            word if is_plain(word) => write!(f, "{word:?} stands there"),
            word => write!(f, "a word of {} octets stands there", word.len()),
        }
    }
}

/// Which value stands at a key of a kind, if one does, behind a semicolon; its text is shown only where it cannot be a key.
pub(crate) fn shown(alloc: Global, kind: Kind, here: Option<&Value>) -> Result<String, AllocError> {
    match here {
        None => Ok(String::new(alloc)),
        Some(Value::String(text)) => match key_wrong(text.as_str()) {
            Some(wrong) if matches!(kind, Kind::Key) => format!(in alloc; "; {wrong}"),
            _ => format!(in alloc; "; {}", ShownWord(text.as_str())),
        },
        Some(Value::Integer(it @ -99_999..=99_999)) => format!(in alloc; "; {it} stands there"),
        Some(it) => format!(in alloc; "; a value of the type {} stands there", it.type_str()),
    }
}

// Whether a word may be shown: it has three dots and at most 21 octets, as an address with a port, or at most 40 octets and fewer
// than 6 hexadecimal digits, beside something else or as decimal digits alone. So no key of three octets or more is shown.
fn is_plain(word: &str) -> bool
    ensures { result ≡ is_plain word.now }
{
    let (digits, dots, are_decimal) = counts_of(word.as_bytes());
    word.len() <= 21 && dots >= 3
        || word.len() <= 40 && digits < 6 && (digits < word.len() || are_decimal)
}

fn counts_of(octets: &[u8]) -> (usize, usize, bool)
    ensures digits { result.0 ≡ length (filter is_ascii_hexdigit octets.now) }
    ensures dots { result.1 ≡ length (filter (λ octet. octet == 46) octets.now) }
    ensures decimal { result.2 ≡ list_all is_ascii_digit octets.now }
{
    let digits = octets.iter().filter(|it| it.is_ascii_hexdigit()).count();
    let dots = octets.iter().filter(|it| **it == b'.').count();
    (digits, dots, octets.iter().all(|it| it.is_ascii_digit()))
}
