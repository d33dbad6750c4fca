//! What came of a query, as an object of JSON.

use crate::command_line::Asked;
use ntp_query::{Nanos, Outcome};
use serde::Serialize;
use std::alloc::{AllocError, Global};
use std::num::nearest_i64_to_f64;

// What is written of a query, in this order. Times are in seconds.
#[derive(Drop, Serialize)]
struct OutcomeLine<'a> {
    result: &'static str,
    reason: Option<&'static str>,
    offset: Option<f64>,
    delay: Option<f64>,
    stratum: Option<u8>,
    leap: Option<u8>,
    reference_id: Option<String>,
    reference: Option<String>,
    root_distance: Option<f64>,
    server: &'a str,
    number: Option<u16>,
}

/// What came of a query, as an object of JSON in a line without its end (RFC 8259). It has no key. Its memory is from `alloc`.
pub fn outcome_line(
    alloc: Global,
    asked: &Asked<'_>,
    outcome: &Outcome,
) -> Result<String, AllocError> {
    let (answer, reference) = (outcome.answer(), outcome.reference());
    let digits = reference.map(|it| format!(in alloc; "{:08x}", u32::from_be_bytes(it.identifier)));
    let line = OutcomeLine {
        result: outcome.word(),
        reason: outcome.reason(),
        offset: answer.map(|it| seconds(it.offset())),
        delay: answer.map(|it| seconds(it.delay())),
        stratum: answer.map(|it| it.clock.stratum),
        leap: answer.map(|it| it.clock.leap),
        reference_id: digits.transpose()?,
        reference: reference.map(|it| it.to_string(alloc)).transpose()?,
        root_distance: answer.map(|it| seconds(it.root_distance())),
        server: asked.server_word,
        number: asked.key.map(|(_, number)| number.get()),
    };
    serde_json::to_string(alloc, &line).map_err(|_| AllocError)
}

// A time in seconds. Up to 2^23 seconds the float prints with the very decimals that the time has.
fn seconds(time: Nanos) -> f64 {
    nearest_i64_to_f64(time.0) / 1_000_000_000.0
}
