//! The exchanges that are saved. Nothing else opens them.
ghost use Rattle.std.specs.Prelude.{◌≡◌, [], ◌∷◌, ◌++◌, if◌then◌else◌, None, Some, IfOk, IsNone, IsTrue, is_some, option_and_then, position};
ghost use Rattle.std.specs.Bool.{OnFalse};
ghost use Rattle.ntp_packet.specs.Fresh.{is_free};
ghost use Rattle.ntp_customer.specs.Exchanges.{AreSaved, recent, new_exchange, receives, all_stamps, exchange_at, unused_at, is_unused_at, spent, with_departure};

use crate::{NoMemory, Slot};
use circular_buffer::HeapCircularBuffer;
use ntp_packet::{Moment, Stamp};
use std::alloc::{Allocator, Global};
use std::marker::Model;

/// How many exchanges are saved (profile).
pub(crate) const MOST_SLOTS: usize = 8;

/// The last exchanges of a customer, or all where there are fewer than are saved (profile). Contracts see
/// them as a list, oldest first.
#[derive(Drop)]
pub struct Slots<A: Allocator = Global> {
    // A ring with room for as many as are saved, so that a new one takes no memory and overwrites the oldest.
    exchanges: HeapCircularBuffer<Slot, A>,
}

impl<A: Allocator> Model for Slots<A> {
    ghost use Rattle.std.specs.Prelude.{◌≡◌, List};
    ghost use Rattle.ntp_customer.specs.{declared.slot.Slot.Slot, Exchanges.most_slots, Exchanges.AreSaved};

    ghost Value = { List Slot };

    ghost view = { λ s. s.exchanges.items };

    ghost invariant = { λ s. (s.exchanges.capacity ≡ most_slots) × AreSaved s.exchanges.items };
}

impl<A: Allocator> Slots<A> {
    /// No exchange. The room for all that will be saved is taken from `alloc` here, and none later:
    /// `NoMemory` only where a growth was refused.
    pub fn new(alloc: A) -> Result<Self, NoMemory>
        ensures { IfOk result (λ slots. slots ≡ []) }
    {
        let exchanges = HeapCircularBuffer::with_capacity(alloc, MOST_SLOTS)?;
        Ok(Slots { exchanges })
    }

    /// What holds of every value, for proofs that need it; it does nothing when it is called.
    pub fn are_saved(&self)
        ensures { AreSaved self.now }
    {
        let _ = &self.exchanges;
    }

    // The exchanges, oldest first, in the two pieces in which the ring holds them.
    pub(crate) fn saved(&self) -> (&[Slot], &[Slot])
        ensures pieces { result.0.now ++ result.1.now ≡ self.now }
        ensures saved { AreSaved self.now }
    {
        self.exchanges.as_slices()
    }

    /// The exchange with this receive stamp, used or not.
    #[tactic(auto, using(crate::proofs::Saved::saved))]
    pub fn find(&self, receive: Stamp) -> Option<Slot>
        ensures found { result ≡ exchange_at self.now receive }
        ensures unused { unused_at self.now receive ≡ option_and_then (λ x. if x.used then None else Some x) result }
        ensures saved { AreSaved self.now }
    {
        let (older, newer) = self.exchanges.as_slices();
        exchange_in(older, receive).or(exchange_in(newer, receive))
    }

    /// Marks the unused exchange with this receive stamp as used (profile, after RFC 9769). Where there is
    /// none, the answer is `false` and nothing changes.
    pub fn spend(&mut self, receive: Stamp) -> bool
        ensures found { result ≡ is_some (unused_at self.old receive) }
        ensures spent { self.new ≡ spent self.old receive }
        ensures unchanged { OnFalse result (self.new ≡ self.old) }
        ensures saved { AreSaved self.new }
    {
        self.spend_unused(receive).is_some()
    }

    /// Marks the unused exchange with this receive stamp as used, and gives it as it was before (profile, after
    /// RFC 9769). Where there is none, nothing changes.
    #[tactic(auto, using(crate::proofs::Changes::changes, crate::proofs::Places::lent_at_place), unfolding(crate::specs::Exchanges::spent))]
    pub fn spend_unused(&mut self, receive: Stamp) -> Option<Slot>
        ensures found { result ≡ unused_at self.old receive }
        ensures spent { self.new ≡ spent self.old receive }
        ensures unchanged { IsNone result → self.new ≡ self.old }
        ensures saved { AreSaved self.new }
    {
        let place = self.unused_place(receive)?;
        let exchange = self.exchanges.get_mut(place).unwrap();
        let unused = *exchange;
        exchange.used = true;
        Some(unused)
    }

    /// Saves a new exchange, unused; the oldest goes where there are more than are saved (profile). Its
    /// receive stamp is neither 0 nor a saved stamp, and its transmit stamp is neither 0, nor that receive
    /// stamp, nor a saved one.
    #[tactic(auto, using(crate::proofs::Saved::saved), unfolding(crate::specs::Exchanges::recent))]
    pub fn push(&mut self, receive: Stamp, transmit: Stamp)
        requires receive_free { IsTrue (is_free (all_stamps self.old) receive) }
        requires transmit_free { IsTrue (is_free (receives self.old ++ receive ∷ []) transmit) }
        ensures pushed { self.new ≡ recent (self.old ++ new_exchange receive transmit ∷ []) }
        ensures saved { AreSaved self.new }
    {
        self.exchanges.push_back(Slot {
            receive,
            transmit,
            used: false,
        });
    }

    /// A reply left at this moment: its transmit stamp becomes the moment's, or the first after it that
    /// is neither 0 nor a saved receive stamp, where an unused exchange has this receive stamp (profile,
    /// after RFC 9769). Where there is none, the answer is `false` and nothing changes.
    #[tactic(auto, using(crate::proofs::Changes::changes), unfolding(crate::specs::Exchanges::with_departure))]
    pub fn depart(&mut self, receive: Stamp, moment: Moment) -> bool
        ensures found { result ≡ is_some (unused_at self.old receive) }
        ensures departed { self.new ≡ with_departure self.old receive moment }
        ensures unchanged { OnFalse result (self.new ≡ self.old) }
        ensures saved { AreSaved self.new }
    {
        let Some(departed) = self.unused_place(receive) else {
            return false;
        };
        let transmit = self.new_departure(moment.stamp());
        self.exchanges.get_mut(departed).unwrap().transmit = transmit;
        true
    }

    // Where the unused exchange with this receive stamp stands, counted from the oldest. No saved stamp is 0, and a query
    // that asks about no exchange has that origin, so the exchanges are not looked through for it.
    #[tactic(auto, using(crate::proofs::Places::places))]
    fn unused_place(&self, receive: Stamp) -> Option<usize>
        ensures { result ≡ position (is_unused_at receive) self.now }
    {
        let exchanges = &self.exchanges;
        if receive.0 == 0 {
            return None;
        }
        let (older, newer) = exchanges.as_slices();
        match unused_in(older, receive) {
            Some(place) => Some(place),
            None => Some(older.len() + unused_in(newer, receive)?),
        }
    }
}

// The exchange with this receive stamp.
fn exchange_in(slots: &[Slot], receive: Stamp) -> Option<Slot>
    ensures { result ≡ exchange_at slots.now receive }
{
    slots.iter().copied().find(|slot| slot.receive == receive)
}

// Where the unused exchange with this receive stamp stands.
fn unused_in(slots: &[Slot], receive: Stamp) -> Option<usize>
    ensures { result ≡ position (is_unused_at receive) slots.now }
{
    slots
        .iter()
        .position(|slot| !slot.used && slot.receive == receive)
}
