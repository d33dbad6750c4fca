//! Reports of departures.
ghost use Rattle.std.specs.Prelude.{◌≡◌};
ghost use Rattle.std.specs.Bool.{OnFalse};
ghost use Rattle.ntp_customer.specs.{Customer.numbers_of, Past.Past, Past.short};
ghost use Rattle.ntp_reply.specs.Exchanged.{is_noted, after_departure};

use ntp_customer::Customer;
use ntp_packet::{Moment, Stamp};
use std::alloc::Allocator;

/// A reply to a customer with this receive stamp left at this moment: its transmit stamp becomes the moment's, or the first
/// after it that may be taken, where the customer is enrolled and its exchange is saved and unused (profile, after RFC 9769).
/// Otherwise the answer is `false` and nothing changes. It takes no memory.
pub fn depart<A: Allocator + Copy>(
    customer: &mut Customer<A>,
    receive: Stamp,
    moment: Moment,
) -> bool
    ensures noted { (past : Past) → short past ≡ customer.old → result ≡ is_noted past receive }
    ensures after { (past : Past) → short past ≡ customer.old → customer.new ≡ short (after_departure past receive moment) }
    ensures unchanged { OnFalse result (customer.new ≡ customer.old) }
    ensures numbers { numbers_of customer.new ≡ numbers_of customer.old }
{
    customer.is_enrolled() && customer.slots_mut().depart(receive, moment)
}
