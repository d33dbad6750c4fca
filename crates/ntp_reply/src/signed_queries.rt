//! Signed queries: each is counted, and as many of a window as the budget get the time.
ghost use Rattle.std.specs.Prelude.{◌≡◌, ◌+◌, false, IsSome};
ghost use Rattle.ntp_mac.specs.Digest.{digest_length};
ghost use Rattle.ntp_customer.specs.{Customer.enrolment_at, Past.Past, Past.short};
ghost use Rattle.ntp_reply.specs.{Life.recent_of, Exchanged.after_time, Kind.Signed, Replies.kiss_fields, Answered.Answers};
ghost use Rattle.ntp_reply.specs.Verdict.{signed_reply, timed, reply_length};

use crate::exchanging::exchange;
use crate::occasion::Occasion;
use crate::packets::{kiss_fields, time_fields};
use crate::{Answer, Kiss, Reason, SignedReply};
use ntp_customer::{Customer, NumberedKey};
use ntp_mac::{Reply, seal};
use ntp_packet::Header;
use std::alloc::Allocator;

// The answer to a query that is signed under a key of an enrolled customer. All its keys share one budget.
pub(crate) fn serve_signed<A: Allocator + Copy>(
    customer: &mut Customer<A>,
    held: &NumberedKey,
    request: &Header,
    occasion: &Occasion,
) -> Answer
    requires { IsSome (enrolment_at customer.old) }
    ensures { Answers occasion.now (Signed held.now.key held.now.number request.now) (52 + digest_length held.now.key.algorithm)
        customer.old customer.new result }
{
    let budget = u32::from(customer.budget());
    let count = customer.charge_signed(occasion.receipt.window());
    if count < budget {
        time(customer, held, request, occasion)
    } else if count == budget {
        rate(held, request)
    } else {
        Answer::Silent(Reason::OverBudget)
    }
}

// The time, sealed with the query's key: interleaved where the request asks about a saved exchange.
fn time<A: Allocator + Copy>(
    customer: &mut Customer<A>,
    held: &NumberedKey,
    request: &Header,
    occasion: &Occasion,
) -> Answer
    requires { IsSome (enrolment_at customer.old) }
    ensures answer { (past : Past) → short past ≡ customer.old
        → result ≡ timed held.now.key held.now.number occasion.now request.now (recent_of past) }
    ensures after { (past : Past) → short past ≡ customer.old
        → customer.new ≡ short (after_time past occasion.now request.now) }
    ensures enrolment { enrolment_at customer.new ≡ enrolment_at customer.old }
    ensures octets { reply_length result ≡ 52 + digest_length held.now.key.algorithm }
{
    let exchanged = exchange(customer.slots_mut(), request, occasion);
    let stamps = exchanged.stamps;
    let mut octets = Reply::from_header(&time_fields(occasion, request, exchanged.matched, stamps));
    seal(&held.key, held.number, &mut octets);
    Answer::Time {
        reply: SignedReply {
            octets,
            number: held.number,
            is_interleaved: exchanged.matched.is_some(),
        },
        saved: stamps.receive,
    }
}

// The kiss RATE, sealed with the query's key.
fn rate(held: &NumberedKey, request: &Header) -> Answer
    ensures answer { result ≡ Answer.Rate (signed_reply held.now.key held.now.number false (kiss_fields Kiss.Rate request.now)) }
    ensures octets { reply_length result ≡ 52 + digest_length held.now.key.algorithm }
{
    let mut octets = Reply::from_header(&kiss_fields(Kiss::Rate, request));
    seal(&held.key, held.number, &mut octets);
    Answer::Rate(SignedReply {
        octets,
        number: held.number,
        is_interleaved: false,
    })
}
