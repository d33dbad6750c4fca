//! The key, from its file.

use crate::faults::Faults;
use ntp_admin::Escaped;
use ntp_host::read_regular_file;
use ntp_mac::Key;
use ntp_query::{KeyFileFault, KeyLineFault, key_in_text, spaced};
use std::num::NonZero;

/// How many octets a key file has at most.
const MOST_OCTETS: u32 = 65_536;

/// The key with a number in the file at a path. The error is the exit status of a fault, which was printed.
pub fn read_key(path: &str, number: NonZero<u16>, faults: Faults<'_>) -> Result<Key, u8> {
    let rt = faults.rt;
    let octets = read_regular_file(rt, rt.alloc(), path, MOST_OCTETS).map_err(
        |error| faults.of_system(path, &error),
    )?;
    let path = Escaped(path);
    if octets.len() > MOST_OCTETS as usize {
        return Err(faults.report(format_args!("{path}: at most {MOST_OCTETS} octets are wanted")));
    }
    let octets = spaced(rt.alloc(), &octets).map_err(|_| faults.memory())?;
    let Ok(text) = str::from_utf8(&octets) else {
        return Err(faults.report(format_args!("{path}: this is no UTF-8")));
    };
    key_in_text(text, number.get()).map_err(|fault| match fault {
        KeyFileFault::Missing => faults.report(format_args!("{path}: there is no key {number}")),
        KeyFileFault::Line { line, fault } => {
            let wanted = match fault {
                KeyLineFault::Words => "NUMBER [MD5|SHA1] [ASCII:|HEX:]KEY is wanted",
                KeyLineFault::Algorithm => "MD5 or SHA1 is wanted",
                KeyLineFault::Key => {
                    "a key of 1 to 32 octets is wanted, behind HEX: in 2 to 64 hexadecimal digits"
                }
            };
            faults.report(format_args!("{path}: line {line}: {wanted}"))
        }
    })
}
