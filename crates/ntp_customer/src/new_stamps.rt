//! New stamps beside the saved ones: each is the first that is free.
ghost use Rattle.std.specs.Prelude.{◌≡◌, ◌==◌, ◌||◌, [], ◌∷◌, ◌++◌, IsTrue};
ghost use Rattle.std.specs.List.{list_any};
ghost use Rattle.ntp_packet.specs.Fresh.{fresh, is_free};
ghost use Rattle.ntp_customer.specs.Exchanges.{receives, all_stamps, is_received_at};

use crate::slots::MOST_SLOTS;
use crate::{Slot, Slots};
use ntp_packet::{Stamp, first_free};
use std::alloc::Allocator;

/// How many stamps can be taken: both of each exchange that is saved.
const MOST_TAKEN: usize = 2 * MOST_SLOTS;

impl<A: Allocator> Slots<A> {
    /// The receive stamp of a new exchange: this stamp, or the first after it that is neither 0 nor a saved stamp
    /// (profile), in units of 2^-32 seconds.
    pub fn new_receive(&self, stamp: Stamp) -> Stamp
        ensures value { result ≡ fresh stamp (all_stamps self.now) }
        ensures free { IsTrue (is_free (all_stamps self.now) result) }
    {
        let (older, newer) = self.saved();
        first_free(stamp, MOST_TAKEN, |receive| {
            is_saved_in(older, receive) || is_saved_in(newer, receive)
        })
    }

    /// The transmit stamp of a new exchange with this receive stamp: this stamp, or the first after it that is neither
    /// 0, nor a saved receive stamp, nor that one (profile), in units of 2^-32 seconds.
    pub fn new_transmit(&self, stamp: Stamp, receive: Stamp) -> Stamp
        ensures value { result ≡ fresh stamp (receives self.now ++ receive ∷ []) }
        ensures free { IsTrue (is_free (receives self.now ++ receive ∷ []) result) }
    {
        let (older, newer) = self.saved();
        first_free(stamp, MOST_TAKEN, |transmit| {
            is_received_in(older, transmit)
                || is_received_in(newer, transmit)
                || receive == transmit
        })
    }

    // The transmit stamp of an exchange whose reply left: this stamp, or the first after it that is neither 0 nor a saved
    // receive stamp (profile, after RFC 9769), in units of 2^-32 seconds.
    pub(crate) fn new_departure(&self, stamp: Stamp) -> Stamp
        ensures { result ≡ fresh stamp (receives self.now) }
    {
        let (older, newer) = self.saved();
        first_free(stamp, MOST_TAKEN, |departure| {
            is_received_in(older, departure) || is_received_in(newer, departure)
        })
    }
}

// Whether one of these exchanges has the stamp.
fn is_saved_in(slots: &[Slot], stamp: Stamp) -> bool
    ensures { result ≡ list_any (λ x. (x.receive.0 == stamp.0) || (x.transmit.0 == stamp.0)) slots.now }
{
    slots
        .iter()
        .any(|slot| slot.receive == stamp || slot.transmit == stamp)
}

// Whether one of these exchanges has the receive stamp.
fn is_received_in(slots: &[Slot], stamp: Stamp) -> bool
    ensures { result ≡ list_any (is_received_at stamp) slots.now }
{
    slots.iter().any(|slot| slot.receive == stamp)
}
