//! What each kind of word says.
ghost use Rattle.std.specs.Prelude.{◌≡◌, ◌+◌, ◌≤◌, ◌⊎◌, length, IfOk, IfErr, IfSome, None};
ghost use Rattle.std.specs.{Char.is_ascii_digit, List.list_all, List.slice_range, Option.option_map};
ghost use Rattle.ntp_admin.specs.Words.{is_decimal, decimal_in, address_in, number_in, algorithm_in, key_in, octets_in, stamp_in, moment_in, reference_in};

use crate::parts::TextParts;
use hex::{FromHex, FromHexError};
use ntp_mac::{Algorithm, Key, MOST_KEY_OCTETS};
use ntp_packet::{ClockFields, Moment, Short, Stamp};
use ntp_reply::Reference;
use ntp_service::{Address, LineFault, Octets};
use std::alloc::Allocator;
use std::num::NonZero;

/// How many octets spell a reference state.
const REFERENCE_OCTETS: usize = 23;

// Whether a word is digits alone, with no zero in front of others.
fn is_decimal(word: &str) -> bool
    ensures { result ≡ is_decimal word.now }
{
    let digits = word.as_bytes();
    are_digits(digits) && !digits.is_empty() && (digits[0] != b'0' || digits.len() == 1)
}

// Whether octets are decimal digits alone.
fn are_digits(octets: &[u8]) -> bool
    ensures { result ≡ list_all is_ascii_digit octets.now }
{
    octets.iter().all(|octet| octet.is_ascii_digit())
}

/// The number of a decimal word with no sign and no leading zero, where it is from `least` to `most`.
pub fn decimal(word: &str, least: u32, most: u32) -> Option<u32>
    ensures number { result ≡ decimal_in least most word.now }
    ensures range { IfSome result (λ number. (least ≤ number) × (number ≤ most)) }
{
    if !is_decimal(word) {
        return None;
    }
    let number = word.parse::<u32>().ok()?;
    (least <= number && number <= most).then_some(number)
}

/// An address: four numbers from 0 to 255 with dots between them.
pub fn address(word: &str) -> Option<Address>
    ensures { result ≡ address_in word.now }
{
    let mut parts = TextParts::new(word, '.');
    let first = decimal(parts.next()?, 0, 255)? as u8;
    let second = decimal(parts.next()?, 0, 255)? as u8;
    let third = decimal(parts.next()?, 0, 255)? as u8;
    let fourth = decimal(parts.next()?, 0, 255)? as u8;
    parts
        .next()
        .is_none()
        .then_some(Address([first, second, third, fourth]))
}

/// A key number or a budget: from 1 to 65,535.
pub fn number(word: &str) -> Option<NonZero<u16>>
    ensures { result ≡ number_in word.now }
{
    let number = decimal(word, 1, 65_535)?;
    NonZero::<u16>::new(number as u16)
}

/// A digest algorithm: `md5` or `sha1`.
pub fn algorithm(word: &str) -> Option<Algorithm>
    ensures { result ≡ algorithm_in word.now }
{
    match word {
        "md5" => Some(Algorithm::Md5),
        "sha1" => Some(Algorithm::Sha1),
        _ => None,
    }
}

/// A key for an algorithm: 2 to 64 hexadecimal digits, an even number.
pub fn key(algorithm: Algorithm, word: &str) -> Option<Key>
    ensures { result ≡ option_map (λ octets. record { algorithm = algorithm; octets = octets }) (key_in word.now) }
{
    let len = word.len() / 2;
    if len > MOST_KEY_OCTETS {
        return None;
    }
    let mut octets = [0; MOST_KEY_OCTETS];
    hex::decode_to_slice(word, &mut octets[..len]).ok()?;
    Key::new(algorithm, &octets[..len]).ok()
}

/// A stamp: 16 hexadecimal digits.
pub(crate) fn stamp(word: &str) -> Option<Stamp>
    ensures { result ≡ stamp_in word.now }
{
    let octets = <[u8; 8]>::from_hex(word).ok()?;
    Some(Stamp(u64::from_be_bytes(octets)))
}

/// A moment: an era from 0 to 4,294,967,295, a colon, and a stamp.
pub(crate) fn moment(word: &str) -> Option<Moment>
    ensures { result ≡ moment_in word.now }
{
    let mut parts = TextParts::new(word, ':');
    let era = parts.next()?;
    let within = parts.next()?;
    parts.end().ok()?;
    Some(Moment {
        era: decimal(era, 0, u32::MAX)?,
        stamp: stamp(within)?,
    })
}

/// A reference state: 46 hexadecimal digits, which spell leap (1 octet), stratum (1), precision (1), root
/// delay (4), root dispersion (4), identifier (4) and reference stamp (8).
pub fn reference(word: &str) -> Option<Reference>
    ensures { result ≡ reference_in word.now }
{
    let octets = <[u8; REFERENCE_OCTETS]>::from_hex(word).ok()?;
    Reference::of(ClockFields {
        leap: octets[0],
        stratum: octets[1],
        precision: octets[2].cast_signed(),
        root_delay: Short(u32::from_be_bytes(octets_at(&octets, 3))),
        root_dispersion: Short(u32::from_be_bytes(octets_at(&octets, 7))),
        reference_id: octets_at(&octets, 11),
        reference: Stamp(u64::from_be_bytes(octets_at(&octets, 15))),
    })
    .ok()
}

// The `N` octets from a place on.
fn octets_at<const N: usize>(octets: &[u8], at: usize) -> [u8; N]
    requires { at + N ≤ length octets.now }
    ensures { result ≡ slice_range octets.now at (at + N) }
{
    let mut part = [0; N];
    part.copy_from_slice(&octets[at..at + N]);
    part
}

/// The octets of a datagram: an even number of hexadecimal digits, at least 2, or `-` for none. `Hex` where
/// the word is neither, `NoMemory` where memory runs out.
pub(crate) fn octets<A: Allocator + Copy>(alloc: A, word: &str) -> Result<Octets<A>, LineFault>
    ensures found { IfOk result (λ octets. octets_in word.now ≡ Some octets) }
    ensures fault { IfErr result (λ f. (f ≡ LineFault.NoMemory) ⊎ ((octets_in word.now ≡ None) × (f ≡ LineFault.Hex))) }
{
    if word == "-" {
        return Ok(Octets::new(Vec::new(alloc)));
    }
    if word.is_empty() {
        return Err(LineFault::Hex);
    }
    match hex::decode(alloc, word) {
        Ok(octets) => Ok(Octets::new(octets)),
        Err(FromHexError::OutOfMemory) => Err(LineFault::NoMemory),
        Err(_) => Err(LineFault::Hex),
    }
}
