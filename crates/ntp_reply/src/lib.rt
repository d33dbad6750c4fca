//! The decision on a request of a customer, what it leaves of the customer, the headers of the replies, field by field, and the state
//! of the server's clock that they tell.
#![tactic(auto)]

mod answers;
mod deciding;
mod departing;
mod exchanging;
mod kiss;
mod laws;
mod occasion;
mod packets;
mod reference;
mod refusing;
mod signed_queries;

pub use answers::{Answer, Reason, SignedReply};
pub use deciding::{answer, answer_octets};
pub use departing::depart;
pub use kiss::Kiss;
pub use laws::{a_reply_has_distinct_stamps, a_reply_is_no_longer_than_its_datagram};
pub use reference::{BadReference, Reference};
