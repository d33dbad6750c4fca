//! A key file in the form of chrony (chrony.conf(5), `keyfile`).
ghost use Rattle.std.specs.Prelude.{◌≡◌, [], ◌∷◌, map, IfOk, MatchOption};
ghost use Rattle.std.specs.Option.{option_map};
ghost use Rattle.ntp_query.specs.KeyFile.{space_for, words, is_key_line, algorithm_of, key_octets, key_in_words, key_in_line, key_in_text};

use ntp_admin::words;
use ntp_mac::{Algorithm, Key};
use std::alloc::{AllocError, Global};
use std::marker::Model;

/// Why a key file gives no key with a number.
#[derive(Clone, Copy)]
pub enum KeyFileFault {
    /// No line has the number.
    Missing,
    /// The first line that has the number has a fault. Lines are counted from 1.
    Line { line: u64, fault: KeyLineFault },
}

/// What is wrong with a line of a key file. The first that applies is told.
#[derive(Clone, Copy)]
pub enum KeyLineFault {
    /// It has neither two words nor three.
    Words,
    /// The algorithm is neither `MD5` nor `SHA1`.
    Algorithm,
    /// The key is neither 1 to 32 octets, behind `ASCII:` or alone, nor 2 to 64 hexadecimal digits, an even number, behind `HEX:`.
    Key,
}

/// The octets of a key file with spaces in the place of tabulators and carriage returns, which separate words as they do. It
/// takes memory from `alloc`.
pub fn spaced(alloc: Global, octets: &[u8]) -> Result<Vec<u8>, AllocError>
    ensures { IfOk result (λ made. made.items ≡ map space_for octets.now) }
{
    octets
        .iter()
        .map(|octet| match octet {
            b'\t' | b'\r' => b' ',
            octet => *octet,
        })
        .collect(alloc)
}

/// The key with a number, 1 to 65,535, in a text of lines `NUMBER [MD5|SHA1] [ASCII:|HEX:]KEY`, with spaces between the words. With no
/// algorithm it is for MD5, and with no form its octets are those of the word. The first line whose first word is the number counts. No
/// other line is judged, so a comment, which begins with `#`, `%`, `;` or `!`, and a key of another algorithm do no harm.
pub fn key_in_text(text: &str, number: u16) -> Result<Key, KeyFileFault>
    ensures { result ≡ key_in_text number text.now }
{
    let mut rest = text;
    let mut line = 1;
    while let Some((first, others)) = rest.split_once('\n') {
        if is_key_line(first, number) {
            return key_in_line(line, first);
        }
        rest = others;
        line += 1;
    }
    if is_key_line(rest, number) {
        return key_in_line(line, rest);
    }
    Err(KeyFileFault::Missing)
}

// Whether the first word of a line is a number.
fn is_key_line(line: &str, number: u16) -> bool
    ensures { result ≡ is_key_line number line.now }
{
    let first = KeyWords::new(line).next().and_then(words::number);
    first.is_some_and(|found| found.get() == number)
}

// The key of the line with this place.
fn key_in_line(line: u64, text: &str) -> Result<Key, KeyFileFault>
    ensures { result ≡ key_in_line line text.now }
{
    key_in_words(text).map_err(|fault| KeyFileFault::Line { line, fault })
}

// The key of the words of a line.
fn key_in_words(text: &str) -> Result<Key, KeyLineFault>
    ensures { result ≡ key_in_words text.now }
{
    let mut words = KeyWords::new(text);
    match (words.next(), words.next(), words.next(), words.next()) {
        (Some(_), Some(key), None, None) => key_of(Algorithm::Md5, key).ok_or(KeyLineFault::Key),
        (Some(_), Some(name), Some(key), None) => {
            let algorithm = algorithm_of(name).ok_or(KeyLineFault::Algorithm)?;
            key_of(algorithm, key).ok_or(KeyLineFault::Key)
        }
        _ => Err(KeyLineFault::Words),
    }
}

// The algorithm that a word names.
fn algorithm_of(word: &str) -> Option<Algorithm>
    ensures { result ≡ algorithm_of word.now }
{
    match word {
        "MD5" => Some(Algorithm::Md5),
        "SHA1" => Some(Algorithm::Sha1),
        _ => None,
    }
}

// The key that a word writes.
fn key_of(algorithm: Algorithm, word: &str) -> Option<Key>
    ensures { result ≡ option_map (λ octets. record { algorithm = algorithm; octets = octets }) (key_octets word.now) }
{
    if let Some(digits) = word.strip_prefix("HEX:") {
        return words::key(algorithm, digits);
    }
    match word.strip_prefix("ASCII:") {
        Some(text) => Key::new(algorithm, text.as_bytes()).ok(),
        None => Key::new(algorithm, word.as_bytes()).ok(),
    }
}

// The words of a line that are still to be read: what stands between spaces. Several spaces may stand in a row.
#[derive(Drop)]
struct KeyWords<'a> {
    rest: &'a str,
}

impl<'a> Model for KeyWords<'a> {
    ghost use Rattle.std.specs.Prelude.{ℕ, List};
    ghost use Rattle.ntp_query.specs.KeyFile.{words};

    ghost Value = { List (List ℕ) };

    ghost view = { λ w. words w.rest.now };
}

impl<'a> KeyWords<'a> {
    // The words of a line.
    fn new(line: &'a str) -> KeyWords<'a>
        ensures { result ≡ words line.now }
    {
        KeyWords { rest: line }
    }

    // Takes the next word off.
    fn next(&mut self) -> Option<&'a str>
        ensures { MatchOption result ((self.old ≡ []) × (self.new ≡ [])) (λ word. self.old ≡ word.now ∷ self.new) }
    {
        let mut rest = self.rest;
        while let Some((part, behind)) = rest.split_once(' ') {
            rest = behind;
            if !part.is_empty() {
                self.rest = rest;
                return Some(part);
            }
        }
        self.rest = "";
        if rest.is_empty() { None } else { Some(rest) }
    }
}
