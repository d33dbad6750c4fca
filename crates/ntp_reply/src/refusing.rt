//! Refusals: each is counted, and few of a window are sent.
ghost use Rattle.std.specs.Prelude.{◌≡◌, IsSome, nat_lt};
ghost use Rattle.ntp_customer.specs.{Tally.count_in, Customer.enrolment_at};
ghost use Rattle.ntp_customer.specs.Past.{Past, with_refusal, short};
ghost use Rattle.ntp_reply.specs.{Kind.RefusedByDeny, Kind.RefusedByNak, Verdict.refusals_sent, Answered.Answers};

use crate::exchanging::new_stamps;
use crate::occasion::Occasion;
use crate::packets::{basic_fields, kiss_fields};
use crate::{Answer, Kiss, Reason};
use ntp_customer::Customer;
use ntp_mac::{Reply, add_nak};
use ntp_packet::Header;
use std::alloc::Allocator;

/// How many refusals of a window are sent (profile).
const REFUSALS_SENT: u32 = 4;

// Counts a refusal in a window, and says whether it is sent.
fn refuse<A: Allocator + Copy>(customer: &mut Customer<A>, window: u64) -> bool
    ensures sent { (past : Past) → short past ≡ customer.old
        → result ≡ nat_lt (count_in past.refusals window) refusals_sent }
    ensures after { (past : Past) → short past ≡ customer.old → customer.new ≡ short (with_refusal past window) }
    ensures enrolment { enrolment_at customer.new ≡ enrolment_at customer.old }
{
    customer.charge_refusal(window) < REFUSALS_SENT
}

// The kiss DENY, or silence where enough refusals were sent.
pub(crate) fn deny<A: Allocator + Copy>(
    customer: &mut Customer<A>,
    request: &Header,
    occasion: &Occasion,
) -> Answer
    ensures { Answers occasion.now (RefusedByDeny request.now) 48 customer.old customer.new result }
{
    if !refuse(customer, occasion.receipt.window()) {
        return Answer::Silent(Reason::Muted);
    }
    Answer::Deny(Reply::from_header(&kiss_fields(Kiss::Deny, request)))
}

// A crypto-NAK to an enrolled customer, or silence where enough refusals were sent. Its stamps are saved nowhere.
pub(crate) fn nak<A: Allocator + Copy>(
    customer: &mut Customer<A>,
    request: &Header,
    occasion: &Occasion,
) -> Answer
    requires { IsSome (enrolment_at customer.old) }
    ensures { Answers occasion.now (RefusedByNak request.now) 52 customer.old customer.new result }
{
    if !refuse(customer, occasion.receipt.window()) {
        return Answer::Silent(Reason::Muted);
    }
    let fields = basic_fields(occasion, request, new_stamps(occasion, customer.slots()));
    let mut reply = Reply::from_header(&fields);
    add_nak(&mut reply);
    Answer::Nak(reply)
}
