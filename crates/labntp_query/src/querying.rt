//! Queries, one after another, and what is printed of them.

use crate::command_line::Asked;
use crate::faults::Faults;
use crate::json::outcome_line;
use crate::key::read_key;
use crate::udp_link::UdpLink;
use ntp_client::Client;
use ntp_packet::Stamp;
use ntp_query::{Asker, Check, Least, Outcome, check_status, least_delay, verdict_of};
use std::io;

/// Asks as often as is wanted, prints what came, and gives the exit status. The error is that of a fault, which was printed.
pub fn query_status(rt: &HostRuntime, asked: &Asked<'_>) -> Result<u8, u8> {
    let is_check = asked.is_check;
    let faults = Faults { rt, is_check };
    let mut asker = match asked.key {
        Some((path, number)) => {
            let key = read_key(path, number, faults)?;
            Asker::Signed(Client::new(key, number.get()))
        }
        None => Asker::Unsigned(Stamp(0)),
    };
    let at_source = |error: io::Error| faults.of_system(asked.source, &error);
    let at_server = |error: io::Error| faults.of_system(asked.server_word, &error);
    let mut link = UdpLink::bind(rt, asked.source, asked.timeout).map_err(at_source)?;
    link.connect(asked.host, asked.port).map_err(at_server)?;
    let mut outcomes = Vec::new(rt.alloc());
    for place in 0..asked.count {
        if place > 0 {
            link.pause(asked.interval).map_err(at_server)?;
        }
        let outcome = link.query(&mut asker).map_err(at_server)?;
        if asked.json {
            faults.print(outcome_line(rt.alloc(), asked, &outcome).map_err(|_| faults.memory())?)?;
        } else if !is_check {
            faults.print(outcome)?;
        }
        outcomes.push(outcome).map_err(|_| faults.memory())?;
    }
    let least = least_delay(&outcomes);
    let samples = outcomes.iter().filter(|it| it.answer().is_some()).count();
    let samples = u32::try_from(samples).unwrap_or(u32::MAX);
    let queries = asked.count;
    if is_check {
        let without = queries.saturating_sub(samples);
        let verdict = verdict_of(&asked.most, &asked.warn, least, without);
        if !asked.json {
            let latest = outcomes.last().copied().unwrap_or(Outcome::Silence);
            faults.print(Check {
                verdict,
                least,
                latest,
            })?;
        }
        return Ok(check_status(verdict));
    }
    if let (Some(answer), true) = (least, queries > 1 && !asked.json) {
        faults.print(Least {
            answer,
            samples,
            queries,
        })?;
    }
    // The status is 0 where a query gave a sample, and 1 where none did.
    Ok(u8::from(least.is_none()))
}
