//! What is written of a customer: a line of JSON.
ghost use Rattle.std.specs.Prelude.{◌≡◌, codes, option_map, if◌then◌else◌};
ghost use Rattle.ntp_customer.specs.Customer.{enrolment_at, is_enrolled};

use crate::counted_kinds::answers;
use crate::counts::Counts;
use crate::customer_report::CustomerReport;
use crate::statistics::SECOND_NANOS;
use ntp_mac::Algorithm;
use ntp_packet::Moment;
use ntp_service::{Address, Customer};
use serde::{Described, Serialize, Serializer};
use std::alloc::{AllocError, Allocator, Global};

/// The seconds from 1900-01-01 to 1970-01-01 (RFC 5905, 6).
const UNIX_EPOCH: u64 = 2_208_988_800;

/// The word of an answer to an address that was never enrolled.
const UNREGISTERED: &str = "unregistered";

// What is written of a customer, in this order.
#[derive(Drop, Serialize)]
struct CustomerLine<'a> {
    address: &'a str,
    state: &'static str,
    keys: Vec<KeyLine>,
    budget: Option<u16>,
    line: u64,
    answers: AnswerCounts,
}

// What is written of a key: all but its octets.
#[derive(Drop, Serialize)]
struct KeyLine {
    number: u16,
    algorithm: &'static str,
    octets: usize,
    last_signed: Option<String>,
}

// How often a customer got each answer, in the words of the statistics; all but that of an address that was never enrolled.
#[derive(Clone, Copy)]
struct AnswerCounts {
    counts: Counts,
}

impl Described for AnswerCounts {}

impl Serialize for AnswerCounts {
    fn serialize<S: Serializer>(&self, out: &mut S) -> Result<(), S::Error> {
        out.begin_map(None)?;
        for (_, word, count) in &answers(&self.counts) {
            if *word != UNREGISTERED {
                out.key(word)?;
                out.u64(*count)?;
            }
        }
        out.end_map()
    }
}

/// The line of a customer at an address, with its line feed: an object of JSON (RFC 8259). It has no key. The memory for it is taken
/// from `alloc`.
///
/// # Errors
///
/// Memory ran out.
pub fn customer_line<A: Allocator + Copy>(
    alloc: Global,
    address: Address,
    customer: &Customer<A>,
    report: &CustomerReport,
) -> Result<Vec<u8>, AllocError> {
    let Address([a, b, c, d]) = address;
    let address = format!(in alloc; "{a}.{b}.{c}.{d}")?;
    let keys = key_lines(alloc, customer, report)?;
    let line = line_with(address.as_str(), keys, customer, report);
    let Ok(mut octets) = serde_json::to_vec(alloc, &line) else {
        return Err(AllocError);
    };
    octets.push(b'\n')?;
    Ok(octets)
}

// What is written of a customer with this address and these keys.
fn line_with<'a, A: Allocator + Copy>(
    address: &'a str,
    keys: Vec<KeyLine>,
    customer: &Customer<A>,
    report: &CustomerReport,
) -> CustomerLine<'a>
    ensures address { result.address.now ≡ address.now }
    ensures state { result.state.now ≡ (if is_enrolled customer.now then codes "enrolled" else codes "revoked") }
    ensures keys { result.keys ≡ keys }
    ensures budget { result.budget ≡ option_map (λ e. e.budget) (enrolment_at customer.now) }
    ensures line { result.line ≡ report.now.line }
    ensures answers { result.answers.counts ≡ report.now.counts }
{
    let is_enrolled = customer.is_enrolled();
    CustomerLine {
        address,
        state: if is_enrolled { "enrolled" } else { "revoked" },
        keys,
        budget: is_enrolled.then(|| customer.budget()),
        line: report.line(),
        answers: AnswerCounts {
            counts: *report.counts(),
        },
    }
}

// What is written of the keys of a customer, the older one first.
fn key_lines<A: Allocator + Copy>(
    alloc: Global,
    customer: &Customer<A>,
    report: &CustomerReport,
) -> Result<Vec<KeyLine>, AllocError> {
    let mut lines = Vec::new(alloc);
    if !customer.is_enrolled() {
        return Ok(lines);
    }
    for number in report.numbers().into_iter().flatten() {
        if let Some(held) = customer.held(u32::from(number)) {
            let last_signed = report.last_signed(number);
            lines.push(KeyLine {
                number,
                algorithm: match held.key.algorithm() {
                    Algorithm::Md5 => "md5",
                    Algorithm::Sha1 => "sha1",
                },
                octets: held.key.octet_count(),
                last_signed: last_signed.map(|it| seconds_text(alloc, it)).transpose()?,
            })?;
        }
    }
    Ok(lines)
}

// A moment as seconds since 1970 with nine decimals, rounded down. One before 1970 is as 1970.
fn seconds_text(alloc: Global, moment: Moment) -> Result<String, AllocError> {
    let units = moment.stamp.0;
    let seconds = (u64::from(moment.era) << 32) + (units >> 32);
    let nanos = ((units & 0xffff_ffff) * SECOND_NANOS) >> 32;
    let seconds = seconds.saturating_sub(UNIX_EPOCH);
    format!(in alloc; "{seconds}.{nanos:09}")
}
