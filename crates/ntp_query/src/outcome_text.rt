//! What came of a query, in words.

use crate::{Answer, Outcome, Reference, Unreached};
use ntp_client::Distrust;
use ntp_packet::Malformed;
use std::fmt;

/// The greatest offset that prints without a word on eras: 2^30 seconds, in nanoseconds.
const MOST_CERTAIN: u64 = 1_000_000_000 << 30;

impl Outcome {
    /// A word for it: `basic` and `interleaved` for a signed sample, `unauthenticated` for another one.
    pub fn word(&self) -> &'static str {
        self.row().0
    }

    // Its word, and what stands behind it, or in front of what this outcome has besides.
    fn row(&self) -> (&'static str, &'static str) {
        match self {
            Outcome::Answered(answer) if !answer.signed => ("unauthenticated", ""),
            Outcome::Answered(answer) if answer.sample.interleaved => ("interleaved", ""),
            Outcome::Answered(_) => ("basic", ""),
            Outcome::Rate => ("rate", "the server is asked too often"),
            Outcome::Deny => (
                "deny",
                "the server does not serve this address, if this is from it",
            ),
            Outcome::Nak => ("nak", "the server has no such key, if this is from it"),
            Outcome::Kiss(_) => ("kiss", ""),
            Outcome::Refused(_) => ("refused", ""),
            Outcome::Silence => ("silence", "nothing came"),
            Outcome::Unreachable(Unreached::Port) => (
                "unreachable",
                "the network says that nobody listens there (connection refused)",
            ),
            Outcome::Unreachable(Unreached::Network) => (
                "unreachable",
                "the network says that the server is not reached",
            ),
        }
    }

    /// A word for why octets were not taken for a reply, or why the server is not reached.
    pub fn reason(&self) -> Option<&'static str> {
        match self {
            Outcome::Refused(why) => Some(refusal_row(*why).0),
            Outcome::Unreachable(Unreached::Port) => Some("port"),
            Outcome::Unreachable(Unreached::Network) => Some("network"),
            _ => None,
        }
    }

    /// The reference of a sample's clock, or the code of a kiss, as a reference of stratum 0.
    pub fn reference(&self) -> Option<Reference> {
        let (stratum, identifier) = match self {
            Outcome::Answered(answer) => (answer.clock.stratum, answer.clock.reference_id),
            Outcome::Kiss(code) => (0, *code),
            _ => return None,
        };
        Some(Reference {
            stratum,
            identifier,
        })
    }
}

/// A word, and what it means.
impl fmt::Display for Outcome {
    fn fmt<W: fmt::Write>(&self, f: &mut fmt::Formatter<W>) -> fmt::Result {
        let (word, meaning) = self.row();
        write!(f, "{word}: {meaning}")?;
        match (self, self.reference()) {
            (Outcome::Answered(answer), Some(reference)) => {
                write_figures(f, answer)?;
                write!(f, ", reference {reference}, leap {}", answer.clock.leap)
            }
            (Outcome::Kiss(_), Some(code)) => write!(f, "{code}, if this is from the server"),
            (Outcome::Refused(why), _) => write_refusal(f, *why),
            _ => Ok(()),
        }
    }
}

// The word for why octets were not taken for a reply, and its sentence; of a fault at a place, what stands behind the place.
fn refusal_row(why: Distrust) -> (&'static str, &'static str) {
    match why {
        Distrust::NothingAsked => ("nothing-asked", "nothing was asked"),
        Distrust::Malformed(fault) => match fault {
            Malformed::Short => ("short", "it has fewer than 48 octets"),
            Malformed::Long => ("long", "it has more than 1024 octets"),
            Malformed::FieldShort { .. } => ("field-short", "is too short"),
            Malformed::FieldUnaligned { .. } => {
                ("field-unaligned", "has a length that is no multiple of 4")
            }
            Malformed::FieldPastEnd { .. } => ("field-past-end", "goes on past its end"),
            Malformed::Rest { .. } => ("rest", "on is no MAC"),
        },
        Distrust::Mode => ("mode", "it is not from a server: its mode is not 4"),
        Distrust::Version => ("version", "its version is not 4"),
        Distrust::Origin => ("origin", "it is no reply to this query"),
        Distrust::Unsigned => ("unsigned", "it is not signed"),
        Distrust::Mac => ("mac", "it is not signed with this key"),
        Distrust::Unsynchronised => ("unsynchronised", "the server's clock is not synchronised"),
        Distrust::Stamps => ("stamps", "it tells no time"),
    }
}

// Writes why octets were not taken for a reply, in a sentence without its end.
fn write_refusal<W: fmt::Write>(f: &mut fmt::Formatter<W>, why: Distrust) -> fmt::Result {
    let (_, text) = refusal_row(why);
    match why {
        Distrust::Malformed(
            Malformed::FieldShort { at }
            | Malformed::FieldUnaligned { at }
            | Malformed::FieldPastEnd { at },
        ) => write!(f, "its field at octet {at} {text}"),
        Distrust::Malformed(Malformed::Rest { at }) => {
            write!(f, "what it has from octet {at} {text}")
        }
        _ => f.write_str(text),
    }
}

// Writes the offset and the delay of an answer. An offset may be another one by an era, where it is so great (RFC 5905, 6).
fn write_times<W: fmt::Write>(f: &mut fmt::Formatter<W>, answer: &Answer) -> fmt::Result {
    let (offset, delay) = (answer.offset(), answer.delay());
    let era = match offset.0.unsigned_abs() {
        0..=MOST_CERTAIN => "",
        _ => " (or one that differs by 136 years)",
    };
    write!(f, "offset {offset} s{era}, delay {delay} s")
}

// Writes the figures of an answer.
pub(crate) fn write_figures<W: fmt::Write>(
    f: &mut fmt::Formatter<W>,
    answer: &Answer,
) -> fmt::Result {
    write_times(f, answer)?;
    let (stratum, root_distance) = (answer.clock.stratum, answer.root_distance());
    write!(f, ", stratum {stratum}, root distance {root_distance} s")
}

// What stands in front of an answer that nobody signed.
pub(crate) fn trust_text(answer: &Answer) -> &'static str {
    if answer.signed {
        ""
    } else {
        "unauthenticated, "
    }
}

/// The sample of least delay, and of how many queries it is. It prints in a line without its end.
#[derive(Clone, Copy)]
pub struct Least {
    /// The sample.
    pub answer: Answer,
    /// How many queries gave a sample.
    pub samples: u32,
    /// How many queries there were.
    pub queries: u32,
}

impl fmt::Display for Least {
    fn fmt<W: fmt::Write>(&self, f: &mut fmt::Formatter<W>) -> fmt::Result {
        let (samples, queries) = (self.samples, self.queries);
        let trust = trust_text(&self.answer);
        write!(
            f,
            "least delay of {samples} samples in {queries} queries: {trust}"
        )?;
        write_times(f, &self.answer)
    }
}
