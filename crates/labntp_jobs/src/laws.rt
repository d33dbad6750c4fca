//! What holds of the definitions of both sides, whatever code meets them. Each function is a law: a call of
//! it does nothing.
ghost use Rattle.std.specs.Prelude.{◌≡◌, ◌≢◌, ◌^◌, ◌<◌, [], true, false, Some, None, IfSome, List, ℕ};
ghost use Rattle.std.specs.Option.{option_and_then};
ghost use Rattle.ntp_packet.specs.{declared.stamp.Stamp.Stamp, declared.moment.Moment.Moment, Fresh.fresh, Header.header_octets};
ghost use Rattle.ntp_customer.specs.{declared.slot.Slot.Slot, Customer.budget_of, Past.Past};
ghost use Rattle.ntp_customer.specs.Exchanges.{AreSaved, new_exchange, receives, unused_at};
ghost use Rattle.ntp_client.specs.{declared.exchange.Exchange.Exchange, declared.exchange.Outstanding.Outstanding};
ghost use Rattle.ntp_client.specs.{State.ClientState, State.IsOutstanding, Taking.taken_for, Taking.after_taken};
ghost use Rattle.ntp_client.specs.Query.{query_fields, next_query, after_query};
ghost use Rattle.ntp_reply.specs.{declared.occasion.Occasion.Occasion, declared.answers.SignedReply.SignedReply, Kind.Signed, Kind.kind_of};
ghost use Rattle.ntp_reply.specs.Life.{Life, recent_of, recent_in};
ghost use Rattle.ntp_reply.specs.Exchanged.{matched, stamps_of, after_departure};
ghost use Rattle.ntp_reply.specs.Verdict.{verdict, after_datagram, query_count, timed};
ghost use Rattle.labntp_jobs.specs.Meeting.{WaitsForReply, SharesKey, FitsPacket, request_octets, basic_sample, interleaved_sample};

use ntp_client::{Distrust, Sample, Taken};
use ntp_reply::Answer;

/// A client's request is a signed query to a server where its address is enrolled, and holds the client's key under the
/// client's number.
///
/// - `waits`: the request that a client makes waits for its reply, with all the widths of a packet. Assumes that the key
///   number fits 32 bits and the earlier stamps 64, as those of each client of the code do.
/// - `signed`: while a request waits, its octets are a signed query, with the header that the client made.
/// - `served`: so it is answered with the time, while the budget has room.
pub fn a_request_is_a_signed_query()
    ensures waits { (c : ClientState) (now : Moment) → c.number < 2 ^ 32
        → IfSome c.sampled (λ e. (e.receive.0 < 2 ^ 64) × (e.arrival.0 < 2 ^ 64)) → WaitsForReply (after_query c now) (next_query c now) }
    ensures signed { (c : ClientState) (q : Outstanding) (past : Past) → WaitsForReply c q → SharesKey past c
        → kind_of past (request_octets c q) ≡ Signed c.key c.number (query_fields q) }
    ensures served { (c : ClientState) (q : Outstanding) (past : Past) (o : Occasion) → WaitsForReply c q → SharesKey past c
        → query_count past o < budget_of past
        → verdict (Some past) o (request_octets c q) ≡ timed c.key c.number o (query_fields q) (recent_of past) }
{}

/// A time reply to a client's request is a sample for that client, while the request waits, whenever the reply comes.
///
/// - `asked`: the saved exchange that the server finds for a request is the unused one with the receive stamp of the
///   exchange that the request carries. For a request that carries none it finds none. Assumes what holds of each
///   client's request, that its receive stamp is known where it carries an exchange and is not its transmit stamp, and
///   of the exchanges of each account.
/// - `basic`: where the server finds none, the sample has the request's departure, its receipt and the reply's departure
///   by the new stamps, and the reply's arrival.
/// - `interleaved`: where it finds one, the sample is that of the exchange that the request carries, with the departure
///   stamp that the server had saved of it.
///
/// For a sample, the request waits, the client's key is shared with the server, the server's reference state has the
/// widths of a packet, and its clock is synchronised. In `interleaved` moreover the exchanges are such as an account
/// keeps, and the stamp that was saved has 64 bits.
pub fn a_time_reply_is_a_sample()
    ensures asked { (q : Outstanding) (saved : List Slot) → IsOutstanding q → AreSaved saved
        → matched saved (query_fields q) ≡ option_and_then (λ e. unused_at saved e.receive) q.earlier }
    ensures basic { (c : ClientState) (q : Outstanding) (past : Past) (o : Occasion) (reply : SignedReply) (saved : Stamp) (at : Moment)
        → WaitsForReply c q → SharesKey past c → FitsPacket o.reference → o.reference.leap ≢ 3
        → matched (recent_of past) (query_fields q) ≡ None
        → verdict (Some past) o (request_octets c q) ≡ Answer.Time reply saved
        → taken_for c reply.octets at ≡ Taken.Sample (basic_sample q saved (stamps_of past o).transmit at) }
    ensures interleaved { (c : ClientState) (q : Outstanding) (past : Past) (o : Occasion) (reply : SignedReply) (saved : Stamp) (at : Moment)
        (carried : Exchange) (found : Slot)
        → WaitsForReply c q → SharesKey past c → FitsPacket o.reference → o.reference.leap ≢ 3
        → q.earlier ≡ Some carried → matched (recent_of past) (query_fields q) ≡ Some found
        → AreSaved (recent_of past) → found.transmit.0 < 2 ^ 64
        → verdict (Some past) o (request_octets c q) ≡ Answer.Time reply saved
        → taken_for c reply.octets at ≡ Taken.Sample (interleaved_sample carried found.transmit) }
{}

/// After a time reply, the next request of the client asks when that reply departed, and the server can tell: so by
/// `a_time_reply_is_a_sample` its time reply gives an interleaved sample, as long as the server saves the exchange.
///
/// - `carried`: the client that took a time reply for a sample carries the exchange: the request's departure, its
///   receipt, and the reply's arrival. Assumes what a sample needs there, except a synchronised clock and that the
///   exchanges are an account's.
/// - `saved`: the server finds the exchange by its receipt, unused, with the new transmit stamp.
/// - `departed`: an exchange that it finds it also finds after a report of its departure, with the stamp of that.
pub fn the_next_request_asks_about_the_exchange()
    ensures carried { (c : ClientState) (q : Outstanding) (past : Past) (o : Occasion) (reply : SignedReply) (saved : Stamp) (at : Moment)
        (s : Sample) → WaitsForReply c q → SharesKey past c → FitsPacket o.reference
        → IfSome (matched (recent_of past) (query_fields q)) (λ found. found.transmit.0 < 2 ^ 64)
        → verdict (Some past) o (request_octets c q) ≡ Answer.Time reply saved
        → after_taken c reply.octets at (Taken.Sample s) ≡ record {
          key = c.key;
          number = c.number;
          outstanding = None;
          sampled = Some (record { transmit = q.transmit; receive = saved; arrival = fresh at.stamp [] });
        } }
    ensures saved { (c : ClientState) (q : Outstanding) (past : Past) (o : Occasion) (reply : SignedReply) (saved : Stamp)
        → WaitsForReply c q → SharesKey past c → verdict (Some past) o (request_octets c q) ≡ Answer.Time reply saved
        → unused_at (recent_in (after_datagram (Some past) o (request_octets c q))) saved
        ≡ Some (new_exchange saved (stamps_of past o).transmit) }
    ensures departed { (past : Past) (receive : Stamp) (m : Moment) (found : Slot) → unused_at (recent_of past) receive ≡ Some found
        → unused_at (recent_of (after_departure past receive m)) receive
        ≡ Some (record found { transmit = fresh m.stamp (receives (recent_of past)) }) }
{}

/// Each other reply to a client's request is taken for what it is, while the request waits.
///
/// - `rate`: a RATE, where the client's key is shared with the server.
/// - `nak`: a crypto-NAK, which goes to a request that is signed under no key that its address holds with the request's
///   number. Assumes that the server's reference state has the widths of a packet.
/// - `deny`: a DENY to a request whose MAC was cut off.
/// - `revoked`: a DENY to a whole request, which goes to an address that is revoked.
/// - `unsynchronised`: a time reply of a server whose clock is not synchronised is refused for that. Else assumes what
///   `a_time_reply_is_a_sample` assumes.
///
/// Nothing else is assumed of the life of the address.
pub fn other_replies_are_taken_for_what_they_are()
    ensures rate { (c : ClientState) (q : Outstanding) (past : Past) (o : Occasion) (reply : SignedReply) (at : Moment)
        → WaitsForReply c q → SharesKey past c → verdict (Some past) o (request_octets c q) ≡ Answer.Rate reply
        → taken_for c reply.octets at ≡ Taken.Rate }
    ensures nak { (c : ClientState) (q : Outstanding) (life : Life) (o : Occasion) (reply : List ℕ) (at : Moment)
        → WaitsForReply c q → FitsPacket o.reference → verdict life o (request_octets c q) ≡ Answer.Nak reply
        → taken_for c reply at ≡ Taken.Nak }
    ensures deny { (c : ClientState) (q : Outstanding) (life : Life) (o : Occasion) (reply : List ℕ) (at : Moment)
        → WaitsForReply c q → verdict life o (header_octets (query_fields q)) ≡ Answer.Deny reply
        → taken_for c reply at ≡ Taken.Deny }
    ensures revoked { (c : ClientState) (q : Outstanding) (life : Life) (o : Occasion) (reply : List ℕ) (at : Moment)
        → WaitsForReply c q → verdict life o (request_octets c q) ≡ Answer.Deny reply
        → taken_for c reply at ≡ Taken.Deny }
    ensures unsynchronised { (c : ClientState) (q : Outstanding) (past : Past) (o : Occasion) (reply : SignedReply) (saved : Stamp)
        (at : Moment) → WaitsForReply c q → SharesKey past c → FitsPacket o.reference → o.reference.leap ≡ 3
        → IsOutstanding q → AreSaved (recent_of past)
        → IfSome (matched (recent_of past) (query_fields q)) (λ found. found.transmit.0 < 2 ^ 64)
        → verdict (Some past) o (request_octets c q) ≡ Answer.Time reply saved
        → taken_for c reply.octets at ≡ Taken.Refused Distrust.Unsynchronised }
{}
