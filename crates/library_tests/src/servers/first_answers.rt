//! The answers to the exchange as far as they were written, and those to an exchange whose enrolment is refused memory.

ghost use Rattle.std.specs.Prelude.{◌≤◌, length};

use std::process::Abort;
use test_support::ANSWERS;

/// The answers where the enrolment is refused memory: those to an address that was never enrolled.
pub(crate) const UNENROLLED_ANSWERS: &str = "refused no-memory\n\
    silent unregistered\n\
    not-noted\n\
    silent unregistered\n\
    silent unregistered\n\
    not-noted\n";

/// How many lines end in a text.
pub(crate) fn ended_lines(text: &[u8]) -> u64
    ensures { result ≤ length text.now }
{
    text.iter().filter(|octet| **octet == b'\n').count() as u64
}

/// Asserts that `written` is the first `lines` lines of the exchange's answers.
pub(crate) fn are_first_answers(rt: &impl Abort, written: &[u8], lines: u64) {
    assert!(rt; ANSWERS.as_bytes().starts_with(written));
    assert!(rt; written.is_empty() || written.ends_with(b"\n"));
    assert_eq!(rt; ended_lines(written), lines);
}
