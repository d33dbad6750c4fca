//! Explains what datagrams would get, and why.

use crate::commands_file::Loaded;
use crate::desk::{Clerk, Desk, MOST_REPORTED_OCTETS, Named, RECORD_FORM, Stop, date};
use ntp_admin::{Outcome, print_answer};
use ntp_clerk::{
    Capture, Datagram, GivenKey, Terms, algorithm_under, algorithm_word, capture_in, datagram_in,
    next_record, packet_in, terms_of,
};
use ntp_client::reference_unsynchronised;
use ntp_host::moment_now;
use ntp_mac::Algorithm;
use ntp_packet::{Malformed, Moment, Stamp, Tail, read_header, read_request};
use ntp_reply::{Answer, Reason};
use ntp_service::Address;
use std::alloc::{AllocError, Global};
use std::io::{self, BufWriter, Stdout, Write};

/// What holds for all datagrams.
const HEAD: &str =
    "What labntpd counted so far is not known here: each datagram is taken for the first of a window of 64 seconds.";

/// Explains what a datagram from an address would get by the commands file, or those of a capture file.
pub fn explain(clerk: &Clerk<'_>, word: &str, from: Option<Address>) -> Result<(), Stop> {
    let desk = clerk.desk;
    let mut explainer = Explainer {
        out: desk.buffered_output()?,
        alloc: desk.alloc(),
        loaded: clerk.load()?,
        now: moment_now(&desk.rt),
        explained: 0,
    };
    match from {
        Some(from) => explainer.digits(desk, from, word),
        None => explainer.file(clerk, word),
    }
}

// Explains datagrams by a service of its own.
#[derive(Drop)]
struct Explainer {
    out: BufWriter<Stdout>,
    alloc: Global,
    loaded: Loaded,
    now: Moment,
    // How many were explained so far.
    explained: u64,
}

impl Explainer {
    // Explains a datagram whose octets are given in hexadecimal digits.
    fn digits(&mut self, desk: Desk<'_>, from: Address, digits: &str) -> Result<(), Stop> {
        let octets = hex::decode(self.alloc, digits).map_err(|fault| match fault {
            hex::FromHexError::OutOfMemory => Stop::Memory,
            _ => desk.refusal("DATAGRAM: hexadecimal digits, an even number, are wanted"),
        })?;
        let _ = writeln!(self.out, "{HEAD}");
        self.datagram(from, &octets)?;
        desk.printed(self.out.flush())
    }

    // Explains the datagrams of the capture file at a path, as far as it is whole.
    fn file(&mut self, clerk: &Clerk<'_>, path: &str) -> Result<(), Stop> {
        let desk = clerk.desk;
        let octets = desk.octets(path, MOST_REPORTED_OCTETS)?;
        let capture = capture_in(&octets).map_err(|fault| desk.refusal_at(path, fault))?;
        let _ = writeln!(self.out, "{HEAD}");
        let cut = self.capture(clerk, capture)?;
        desk.printed(self.out.flush())?;
        let Some(record) = cut else {
            return Ok(());
        };
        Err(desk.refusal_at(path, format_args!("record {record} is cut short")))
    }

    // Explains the datagrams of a capture file to a port, but for the server's own replies. Returns the number of the record that is
    // cut short, if one is.
    fn capture(&mut self, clerk: &Clerk<'_>, file: Capture<'_>) -> Result<Option<u64>, AllocError> {
        let (own, port) = (clerk.server().map(|server| server.address), clerk.port());
        let mut whole: u64 = 0;
        let mut rest = file.records;
        for _ in 0..file.records.len() {
            let Some(record) = next_record(file.order, rest) else {
                break;
            };
            whole = whole.saturating_add(1);
            let packet = packet_in(file.link, record.frame);
            if let Some(datagram) = packet.and_then(|packet| datagram_in(packet, port))
                && !is_reply_of(own, &datagram)
            {
                if let Some(date) = date(self.alloc, record.seconds, RECORD_FORM) {
                    let _ = write!(self.out, "{date} ");
                }
                self.datagram(Address(datagram.source), datagram.payload)?;
            }
            rest = record.behind;
        }
        let explained = self.explained;
        let _ = writeln!(
            self.out,
            "{whole} records, {explained} whole UDP datagrams to port {port}"
        );
        let is_cut = !rest.is_empty();
        Ok(is_cut.then_some(whole.saturating_add(1)))
    }

    // Explains a datagram, in a line.
    fn datagram(&mut self, address: Address, octets: &[u8]) -> Result<(), AllocError> {
        let answer = self.answer(address, octets);
        let outcome = Outcome::Datagram(answer);
        let line = print_answer(self.alloc, &outcome).map_err(|_| AllocError)?;
        let line = line.as_str().trim_end();
        // The reason of a silence is shown, and no octets.
        let word = match line.split_once(' ') {
            Some((word, _)) if word != "silent" => word,
            _ => line,
        };
        let (count, from) = (octets.len(), Named(address, self.loaded.name(address)));
        let _ = write!(self.out, "{count} octets from {from}");
        let _ = self.write_fields(octets);
        let _ = write!(self.out, ": {word}: ");
        if let Outcome::Datagram(answer) = &outcome {
            let _ = self.write_why(address, octets, answer);
        }
        let _ = writeln!(self.out, "");
        self.explained = self.explained.saturating_add(1);
        Ok(())
    }

    // Answers a datagram in a window of 64 seconds of its own.
    fn answer(&mut self, address: Address, octets: &[u8]) -> Answer {
        let Stamp(units) = self.now.stamp;
        let moment = Moment {
            stamp: Stamp(units.wrapping_add(self.explained.wrapping_mul(64 << 32))),
            ..self.now
        };
        let reference = reference_unsynchronised();
        let service = &mut self.loaded.service;
        service.datagram(address, moment, moment, &reference, octets)
    }

    // Writes what a datagram says: version, mode, key number and the length of its MAC.
    fn write_fields(&mut self, octets: &[u8]) -> io::Result<()> {
        let out = &mut self.out;
        if let Some(header) = read_header(octets) {
            let (version, mode) = (header.version(), header.mode());
            write!(out, ", version {version}, mode {mode}")?;
        }
        match read_request(octets).map(|request| request.tail) {
            Ok(Tail::Absent) => write!(out, ", no MAC"),
            Ok(Tail::Bare(number)) => write!(out, ", key number {number}, no digest"),
            Ok(Tail::Md5 { number, .. }) => write!(out, ", key number {number}, MAC of 20 octets"),
            Ok(Tail::Sha1 { number, .. }) => write!(out, ", key number {number}, MAC of 24 octets"),
            Err(_) => Ok(()),
        }
    }

    // Writes why a datagram from an address gets this answer.
    fn write_why(&mut self, from: Address, octets: &[u8], answer: &Answer) -> io::Result<()> {
        // The prover has to see which types stand within `Terms`.
        let _types: Option<GivenKey> = None;
        let customer = self.loaded.service.customer(from);
        let terms = customer.and_then(|customer| terms_of(customer));
        let refused = "four refusals are sent in a window, then silence (muted)";
        match answer {
            Answer::Time { .. } | Answer::Rate(_) => {
                let budget = terms.map_or(0, |terms| terms.budget.get());
                write!(
                    self.out,
                    "a signed query, the time for the first {budget} of a window, which are its budget; then RATE once, \
                     then silence (over-budget)"
                )
            }
            Answer::Deny(_) if terms.is_some() => write!(self.out, "it has no MAC; {refused}"),
            Answer::Deny(_) => write!(self.out, "its address is revoked; {refused}"),
            Answer::Nak(_) => {
                self.write_nak(terms, octets)?;
                write!(self.out, "; {refused}")
            }
            Answer::Silent(reason) => self.write_reason(*reason),
        }
    }

    // Writes what is wrong with the MAC of a datagram of a customer with these terms, if it is enrolled.
    fn write_nak(&mut self, terms: Option<Terms>, octets: &[u8]) -> io::Result<()> {
        let out = &mut self.out;
        let tail = read_request(octets).map_or(Tail::Absent, |request| request.tail);
        let (number, there) = match tail {
            Tail::Md5 { number, .. } => (number, Algorithm::Md5),
            Tail::Sha1 { number, .. } => (number, Algorithm::Sha1),
            _ => return write!(out, "its MAC is under no key of the customer"),
        };
        let wanted = match &terms {
            Some(terms) => algorithm_under(terms, number),
            None => None,
        };
        match wanted {
            None => {
                write!(out, "key number {number} is none of the customer's")?;
                let number = u16::try_from(number).ok();
                match number.and_then(|number| self.loaded.service.holder(number)) {
                    Some(holder) => {
                        let holder = Named(holder, self.loaded.name(holder));
                        write!(out, ": {holder} has it")
                    }
                    None => Ok(()),
                }
            }
            Some(wanted) if wanted != there => {
                let (wanted, there) = (algorithm_word(wanted), algorithm_word(there));
                write!(
                    out,
                    "key {number} is for {wanted}, and the MAC has the length of {there}"
                )
            }
            Some(_) => write!(
                out,
                "its digest is not by key {number}: the client has other octets, or somebody else made or changed it"
            ),
        }
    }

    // Writes why a datagram gets no reply.
    fn write_reason(&mut self, reason: Reason) -> io::Result<()> {
        let (out, field) = (&mut self.out, "extension field at octet");
        match reason {
            Reason::Unregistered => write!(out, "its address was never enrolled"),
            Reason::Malformed(Malformed::Short) => write!(out, "it has fewer than 48 octets"),
            Reason::Malformed(Malformed::Long) => write!(out, "it has more than 1024 octets"),
            Reason::Malformed(Malformed::FieldShort { at }) => {
                write!(out, "the length of the {field} {at} is below 16")
            }
            Reason::Malformed(Malformed::FieldUnaligned { at }) => {
                write!(out, "the length of the {field} {at} is no multiple of 4")
            }
            Reason::Malformed(Malformed::FieldPastEnd { at }) => {
                write!(out, "the {field} {at} is longer than what is left")
            }
            Reason::Malformed(Malformed::Rest { at }) => write!(
                out,
                "what stands from octet {at} on has the length of no MAC: 0, 4, 20 or 24 octets"
            ),
            Reason::Version => write!(out, "its version is neither 3 nor 4"),
            Reason::Mode => write!(out, "its mode is not 3, that of a client"),
            Reason::Bare => write!(out, "a key number without a digest stands behind it"),
            Reason::Muted => write!(out, "four refusals were sent in the window"),
            Reason::OverBudget => write!(out, "the budget of the window is spent"),
        }
    }
}

// Returns whether a datagram is a reply of the server at this address, if it is known: its mode is 4 (RFC 5905, 7.3).
fn is_reply_of(own: Option<Address>, datagram: &Datagram<'_>) -> bool {
    own == Some(Address(datagram.source))
        && read_header(datagram.payload).is_some_and(|header| header.mode() == 4)
}
