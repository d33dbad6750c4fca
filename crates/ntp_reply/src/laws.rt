//! What holds of the definitions, whatever code meets them. Each function is a law: a call of it does nothing.
ghost use Rattle.std.specs.Prelude.{◌≡◌, ℕ, ◌<◌, ◌≤◌, IfSome, Option, List, All, Contains, length};
ghost use Rattle.ntp_packet.specs.Header.{HeaderFields};
ghost use Rattle.ntp_customer.specs.{declared.slot.Slot.Slot, Exchanges.AreSaved};
ghost use Rattle.ntp_reply.specs.{declared.kiss.Kiss.Kiss, declared.occasion.Occasion.Occasion, Life.Life};
ghost use Rattle.ntp_reply.specs.Replies.{HasDistinctStamps, new_stamps, basic_fields, time_fields, kiss_fields};
ghost use Rattle.ntp_reply.specs.Verdict.{verdict, reply_length, most_octets};

use ntp_mac::octets_are_what_they_are_read_as;

/// No reply has equal receive and transmit stamps, and none has a transmit stamp 0: no time reply, whether an exchange that is
/// saved was matched or none, no crypto-NAK and no kiss.
pub fn a_reply_has_distinct_stamps()
    ensures time { (o : Occasion) (request : HeaderFields) (saved : List Slot) (matched : Option Slot) → AreSaved saved
        → IfSome matched (Contains saved) → HasDistinctStamps (time_fields o request matched (new_stamps o saved)) }
    ensures nak { (o : Occasion) (request : HeaderFields) (saved : List Slot) → AreSaved saved
        → HasDistinctStamps (basic_fields o request (new_stamps o saved)) }
    ensures kiss { (kiss : Kiss) (request : HeaderFields) → HasDistinctStamps (kiss_fields kiss request) }
{}

/// A reply is no longer than its datagram: whatever life an address has, the reply that the model gives to octets from it has at
/// most as many octets. It has at most 72, and DENY 48, a crypto-NAK 52. The identifier of the reference state has four octets,
/// as each `Reference` has.
pub fn a_reply_is_no_longer_than_its_datagram()
    ensures datagram { (life : Life) (o : Occasion) (octets : List ℕ) → All (λ octet. octet < 256) octets → length o.reference.reference_id ≡ 4
        → reply_length (verdict life o octets) ≤ length octets }
    ensures most { (life : Life) (o : Occasion) (octets : List ℕ) → length o.reference.reference_id ≡ 4
        → reply_length (verdict life o octets) ≤ most_octets (verdict life o octets) }
{
    octets_are_what_they_are_read_as();
}
