//! The decision, in its order.
ghost use Rattle.std.specs.Prelude.{◌≡◌, ◌≤◌, ◌||◌, ◌==◌, true, length, IsSome, Ok};
ghost use Rattle.ntp_customer.specs.{Customer.enrolment_at, Customer.numbers_of, Past.Past, Past.short};
ghost use Rattle.ntp_reply.specs.Kind.{mac_number, octets_kind, kind_of};
ghost use Rattle.ntp_reply.specs.{Replies.occasion_of, Answered.Answers};
ghost use Rattle.ntp_reply.specs.Verdict.{kind_answer, after_kind, reply_length, request_length};

use crate::occasion::Occasion;
use crate::refusing::{deny, nak};
use crate::signed_queries::serve_signed;
use crate::{Answer, Reason, Reference};
use ntp_customer::Customer;
use ntp_mac::verifies;
use ntp_packet::{Moment, Request, Tail, read_request};
use std::alloc::Allocator;

/// The mode of a packet from a client (RFC 5905, 7.3).
const CLIENT_MODE: u8 = 3;

/// The answer to a datagram from a customer: silence where its octets are no packet, else that of `answer`. It
/// takes no memory, and no reply is longer than the datagram.
pub fn answer_octets<A: Allocator + Copy>(
    customer: &mut Customer<A>,
    receipt: Moment,
    transmit: Moment,
    reference: &Reference,
    octets: &[u8],
) -> Answer
    ensures answer { (past : Past) → short past ≡ customer.old
        → result ≡ kind_answer past (occasion_of receipt transmit reference.now) (kind_of past octets.now) }
    ensures after { (past : Past) → short past ≡ customer.old
        → customer.new ≡ short (after_kind past (occasion_of receipt transmit reference.now) (kind_of past octets.now)) }
    ensures numbers { numbers_of customer.new ≡ numbers_of customer.old }
    ensures no_longer { reply_length result ≤ length octets.now }
{
    match read_request(octets) {
        Ok(request) => answer(customer, &request, receipt, transmit, reference),
        Err(fault) => Answer::Silent(Reason::Malformed(fault)),
    }
}

/// The answer to a request of a customer. The first case that applies decides (profile):
///
/// 1. the version is neither 3 nor 4, or the mode is not a client's: silence;
/// 2. the customer is revoked, or the packet has no MAC: DENY;
/// 3. the tail is a bare key number: silence;
/// 4. the MAC is of none of the customer's keys: a crypto-NAK;
/// 5. otherwise, as many queries of a window as the budget get the time, the next one RATE, the others silence.
///
/// A refusal, by DENY or crypto-NAK, is counted, and sent where fewer than four of its window were counted before it.
/// It takes no memory, and no reply is longer than its request.
pub fn answer<A: Allocator + Copy>(
    customer: &mut Customer<A>,
    request: &Request<'_>,
    receipt: Moment,
    transmit: Moment,
    reference: &Reference,
) -> Answer
    ensures answer { (past : Past) → short past ≡ customer.old
        → result ≡ kind_answer past (occasion_of receipt transmit reference.now) (octets_kind (enrolment_at past) (Ok request.now)) }
    ensures after { (past : Past) → short past ≡ customer.old
        → customer.new
        ≡ short (after_kind past (occasion_of receipt transmit reference.now) (octets_kind (enrolment_at past) (Ok request.now))) }
    ensures numbers { numbers_of customer.new ≡ numbers_of customer.old }
    ensures no_longer { reply_length result ≤ request_length request.now }
{
    if !is_served(request.header.version()) {
        return Answer::Silent(Reason::Version);
    }
    if request.header.mode() != CLIENT_MODE {
        return Answer::Silent(Reason::Mode);
    }
    let occasion = Occasion {
        receipt,
        transmit,
        reference: *reference,
    };
    if !customer.is_enrolled() {
        return deny(customer, &request.header, &occasion);
    }
    let number = match request.tail {
        Tail::Absent => return deny(customer, &request.header, &occasion),
        Tail::Bare(_) => return Answer::Silent(Reason::Bare),
        Tail::Md5 { number, .. } => number,
        Tail::Sha1 { number, .. } => number,
    };
    answer_mac(customer, request, number, &occasion)
}

// Whether requests of a version are served.
fn is_served(version: u8) -> bool
    ensures { result ≡ ((version == 3) || (version == 4)) }
{
    version == 3 || version == 4
}

// The answer to a packet with a MAC of this key number, from a customer that is enrolled. The number chooses the key,
// so one digest at most is computed to verify it.
fn answer_mac<A: Allocator + Copy>(
    customer: &mut Customer<A>,
    request: &Request<'_>,
    number: u32,
    occasion: &Occasion,
) -> Answer
    requires enrolled { IsSome (enrolment_at customer.old) }
    requires served { ((request.now.header.version == 3) || (request.now.header.version == 4)) ≡ true }
    requires mode { request.now.header.mode ≡ 3 }
    requires mac { mac_number request.now request.now.tail ≡ Ok number }
    ensures { Answers occasion.now (octets_kind (enrolment_at customer.old) (Ok request.now)) (request_length request.now) customer.old
        customer.new result }
{
    let Some(found) = customer.held(number) else {
        return nak(customer, &request.header, occasion);
    };
    let held = *found;
    if verifies(&held.key, held.number, request) {
        serve_signed(customer, &held, &request.header, occasion)
    } else {
        nak(customer, &request.header, occasion)
    }
}
