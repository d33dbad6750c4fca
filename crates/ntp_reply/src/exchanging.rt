//! The exchanges of a customer: which one a request asks about, and what a reply saves of itself.
ghost use Rattle.std.specs.Prelude.{◌≡◌, [], ◌∷◌, ◌++◌, IsTrue};
ghost use Rattle.ntp_packet.specs.Fresh.{is_free};
ghost use Rattle.ntp_customer.specs.Exchanges.{recent, new_exchange, receives, all_stamps};
ghost use Rattle.ntp_reply.specs.{Replies.new_stamps, Exchanged.matched, Exchanged.with_match_used};

use crate::occasion::{NewStamps, Occasion};
use ntp_customer::{Slot, Slots};
use ntp_packet::Header;
use std::alloc::Allocator;

// The new stamps on an occasion.
pub(crate) fn new_stamps<A: Allocator>(occasion: &Occasion, slots: &Slots<A>) -> NewStamps
    ensures value { result ≡ new_stamps occasion.now slots.now }
    ensures receive_free { IsTrue (is_free (all_stamps slots.now) result.receive) }
    ensures transmit_free { IsTrue (is_free (receives slots.now ++ result.receive ∷ []) result.transmit) }
{
    let receive = slots.new_receive(occasion.receipt.stamp());
    NewStamps {
        receive,
        transmit: slots.new_transmit(occasion.transmit.stamp(), receive),
    }
}

/// What a time reply makes of the exchanges.
#[derive(Clone, Copy)]
pub(crate) struct Exchanged {
    /// The exchange that the request asked about.
    pub(crate) matched: Option<Slot>,
    /// The stamps of the new one.
    pub(crate) stamps: NewStamps,
}

// The exchange that a request asks about, which is then used, and the stamps of the new one, which is saved.
pub(crate) fn exchange<A: Allocator>(
    slots: &mut Slots<A>,
    request: &Header,
    occasion: &Occasion,
) -> Exchanged
    ensures matched { result.matched ≡ matched slots.old request.now }
    ensures stamps { result.stamps ≡ new_stamps occasion.now slots.old }
    ensures saved { slots.new ≡ recent (with_match_used slots.old request.now
        ++ new_exchange result.stamps.receive result.stamps.transmit ∷ []) }
{
    let stamps = new_stamps(occasion, slots);
    let matched = use_match(slots, request);
    slots.push(stamps.receive, stamps.transmit);
    Exchanged { matched, stamps }
}

// The exchange that a request asks about, which is then used.
fn use_match<A: Allocator>(slots: &mut Slots<A>, request: &Header) -> Option<Slot>
    ensures matched { result ≡ matched slots.old request.now }
    ensures used { slots.new ≡ with_match_used slots.old request.now }
    ensures stamps { (all_stamps slots.new ≡ all_stamps slots.old) × (receives slots.new ≡ receives slots.old) }
{
    if request.receive().0 == request.transmit().0 {
        return None;
    }
    slots.spend_unused(request.origin())
}
