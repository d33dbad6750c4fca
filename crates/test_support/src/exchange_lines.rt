//! An exchange that tests disturb, as the lines of a script: a customer's queries, the departure of a reply, and the answers.

use ntp_admin::{Event, Outcome, parse_event, print_answer};
use std::alloc::{Allocator, Global};
use std::test::Fail;

/// The lines of the exchange: an enrolment, a query, the departure of its reply, a query about that exchange, the same query
/// again, and the same departure again.
pub const SCRIPT: &str = "enrol 192.0.2.10 7 md5 6b6579 10\n\
    datagram 192.0.2.10 0:ec00001090000000 0:ec00001090000100 \
    0001ec00000000000000104e495354ec00000000000000 \
    23000600000000000000000000000000000000000000000000000000000000000000000000000000\
    ec0000108000000000000007c54a79b87ff995975180769bdd0a5236\n\
    departed 192.0.2.10 ec00001090000000 0:ec00001090000180\n\
    datagram 192.0.2.10 0:ec00001190000000 0:ec00001190000100 \
    0001ec00000000000000104e495354ec00000000000000 \
    230006000000000000000000000000000000000000000000\
    ec00001090000000ec000010a0000000ec0000118000000000000007ff099f8a9ae253f3a8183e892fcd9325\n\
    datagram 192.0.2.10 0:ec00001191000000 0:ec00001191000100 \
    0001ec00000000000000104e495354ec00000000000000 \
    230006000000000000000000000000000000000000000000\
    ec00001090000000ec000010a0000000ec0000118000000000000007ff099f8a9ae253f3a8183e892fcd9325\n\
    departed 192.0.2.10 ec00001090000000 0:ec00001090000180\n";

/// The answer lines: a basic reply, an interleaved one that tells the departure, and a basic one, since the exchange was
/// used.
pub const ANSWERS: &str = "done\n\
    time ec00001090000000 240106ec00000000000000104e495354ec00000000000000\
    ec00001080000000ec00001090000000ec0000109000010000000007b26e576547e415ebd8461f86484912fe\n\
    noted\n\
    time ec00001190000000 240106ec00000000000000104e495354ec00000000000000\
    ec000010a0000000ec00001190000000ec0000109000018000000007fb0ad8a5670777ce79f693029cc5eb80\n\
    time ec00001191000000 240106ec00000000000000104e495354ec00000000000000\
    ec00001180000000ec00001191000000ec0000119100010000000007c36fe35835de8febba20919aa8f3e1b9\n\
    not-noted\n";

/// The events that the lines of the exchange spell.
pub fn events<A: Allocator + Copy>(alloc: A) -> Result<Vec<Event<A>, A>, Fail> {
    let mut events = Vec::new(alloc);
    for line in SCRIPT.lines() {
        events.push(parse_event(alloc, line)?)?;
    }
    Ok(events)
}

/// The lines that are printed for outcomes, one behind another.
pub fn printed(alloc: Global, outcomes: &[Outcome]) -> Result<String, Fail> {
    let mut lines = String::new(alloc);
    for outcome in outcomes {
        lines.push_str(print_answer(alloc, outcome)?.as_str())?;
    }
    Ok(lines)
}
