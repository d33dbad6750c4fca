//! What a customer has while it is enrolled.
ghost use Rattle.std.specs.Prelude.{◌≡◌, ◌≢◌, ◌↔◌, ◌<◌, ℕ, None, Some, IfSome, IsSome, Contains, List, [], ◌∷◌, ◌++◌, length, nat_lt, slice_get, option_copied, option_map, ◌==◌, not, filter};
ghost use Rattle.std.specs.{Borrow.Lends, Borrow.sem, Option.option_to_list};
ghost use Rattle.ntp_customer.specs.Tally.{capped_count, tally};
ghost use Rattle.ntp_customer.specs.Customer.{most_keys, enrolment_of, numbers_in, held_in, IsAccount};

use crate::{NumberedKey, Slots, Window};
use ntp_mac::Key;
use std::alloc::{Allocator, Global};
use std::marker::Model;

/// What a customer has while it is enrolled. It is kept in `A`, and the memory of its slots is given back where it ends.
#[derive(Drop)]
pub(crate) struct Account<A: Allocator = Global> {
    // The keys, in the order in which they came.
    older: NumberedKey,
    newer: Option<NumberedKey>,
    budget: u16,
    // The signed queries, as they are counted.
    queries: Window,
    // The last exchanges.
    slots: Slots<A>,
}

impl<A: Allocator> Model for Account<A> {
    ghost use Rattle.std.specs.Prelude.{◌≢◌, ◌<◌, ◌∷◌, IfSome};
    ghost use Rattle.std.specs.Option.{option_to_list};
    ghost use Rattle.ntp_customer.specs.{Tally.IsTally, Customer.Account};

    ghost Value = { Account };

    ghost view = { λ a. record {
      enrolment = record { keys = a.older ∷ option_to_list a.newer; budget = a.budget };
      queries = a.queries;
      exchanges = a.slots;
    } };

    ghost invariant = { λ a. (0 < a.older.number) × IfSome a.newer (λ newer. (0 < newer.number) × (a.older.number ≢ newer.number))
        × (0 < a.budget) × IsTally a.queries };
}

impl<A: Allocator> Account<A> {
    ghost use Rattle.ntp_customer.specs.{contracts.account.Account.the_row, contracts.slots.Slots.the_row as slots_row};

    // An account at the enrolment of its customer, with slots that are empty.
    pub(crate) fn new(key: NumberedKey, budget: u16, slots: Slots<A>) -> Self
        requires number_given { 0 < key.number }
        requires budget_given { 0 < budget }
        requires empty { slots ≡ [] }
        ensures { result ≡ record { enrolment = enrolment_of key budget; queries = tally []; exchanges = [] } }
    {
        Account {
            older: key,
            newer: None,
            budget,
            queries: Window::new(),
            slots,
        }
    }

    // What holds of each account, for proofs that need it; it does nothing when it is called.
    pub(crate) fn is_account(&self)
        ensures { IsAccount self.now }
    {
        self.slots.are_saved();
    }

    // The older key with its number.
    pub(crate) fn older(&self) -> &NumberedKey
        ensures older { slice_get self.now.enrolment.keys 0 ≡ Some result.now }
        ensures positive { 0 < result.now.number }
    {
        &self.older
    }

    // The keys with their numbers, the older one first.
    pub(crate) fn keys(&self) -> (NumberedKey, Option<NumberedKey>)
        ensures keys { self.now.enrolment.keys ≡ result.0 ∷ option_to_list result.1 }
        ensures positive { (0 < result.0.number) × IfSome result.1 (λ newer. 0 < newer.number) }
        ensures apart { IfSome result.1 (λ newer. result.0.number ≢ newer.number) }
    {
        (self.older, self.newer)
    }

    // The numbers of the keys, the older one's first.
    pub(crate) fn numbers(&self) -> (u16, Option<u16>)
        ensures { numbers_in self.now.enrolment ≡ result.0 ∷ option_to_list result.1 }
    {
        (self.older.number, self.newer.map(|newer| newer.number))
    }

    // The key with a number, if it is held. A packet has 32 bits for the number, and a key 16.
    pub(crate) fn held(&self, number: u32) -> Option<&NumberedKey>
        ensures { option_copied result ≡ held_in self.now.enrolment number }
    {
        if u32::from(self.older.number) == number {
            return Some(&self.older);
        }
        match &self.newer {
            Some(newer) if u32::from(newer.number) == number => Some(newer),
            _ => None,
        }
    }

    // The key with a number of 16 bits, if it is held, apart from its number.
    pub(crate) fn key_for(&self, number: u16) -> Option<&Key>
        ensures key { option_copied result ≡ option_map (λ held. held.key) (held_in self.now.enrolment number) }
        ensures held { IsSome result ↔ Contains (numbers_in self.now.enrolment) number }
    {
        if self.older.number == number {
            return Some(&self.older.key);
        }
        match &self.newer {
            Some(newer) if newer.number == number => Some(&newer.key),
            _ => None,
        }
    }

    // Whether there is room for a key more.
    pub(crate) fn has_room(&self) -> bool
        ensures { result ≡ nat_lt (length self.now.enrolment.keys) most_keys }
    {
        self.newer.is_none()
    }

    // One key more.
    pub(crate) fn rollover(&mut self, key: NumberedKey)
        requires number_given { 0 < key.number }
        requires new { held_in self.old.enrolment key.number ≡ None }
        requires room { length self.old.enrolment.keys < most_keys }
        ensures { self.new ≡ record self.old { enrolment = record self.old.enrolment { keys = self.old.enrolment.keys ++ key ∷ [] } } }
    {
        self.newer = Some(key);
    }

    // Takes the key of a number away, where one is left without it.
    pub(crate) fn retire(&mut self, number: u16)
        requires { 1 < length self.old.enrolment.keys }
        ensures { self.new ≡ record self.old { enrolment = record self.old.enrolment { keys = filter (λ k. not (k.number == number)) self.old.enrolment.keys } } }
    {
        let Some(newer) = self.newer else {
            return;
        };
        if self.older.number == number {
            self.older = newer;
            self.newer = None;
        } else if newer.number == number {
            self.newer = None;
        }
    }

    // The budget.
    pub(crate) fn budget(&self) -> u16
        ensures budget { result ≡ self.now.enrolment.budget }
        ensures positive { 0 < result }
    {
        self.budget
    }

    // Another budget; all else stays.
    pub(crate) fn set_budget(&mut self, budget: u16)
        requires { 0 < budget }
        ensures { self.new ≡ record self.old { enrolment = record self.old.enrolment { budget = budget } } }
    {
        self.budget = budget;
    }

    // Counts a signed query in a window, and gives how many were counted in it before.
    pub(crate) fn charge(&mut self, w: u64) -> u32
        ensures counted { (windows : List ℕ) → tally windows ≡ self.old.queries → result ≡ capped_count windows w }
        ensures after { (windows : List ℕ) → tally windows ≡ self.old.queries
            → self.new ≡ record self.old { queries = tally (windows ++ w ∷ []) } }
        ensures enrolment { self.new.enrolment ≡ self.old.enrolment }
    {
        self.queries.charge(w)
    }

    // The last exchanges.
    pub(crate) fn slots(&self) -> &Slots<A>
        ensures { result.now ≡ self.now.exchanges }
    {
        &self.slots
    }

    // The last exchanges, to be written to.
    pub(crate) fn slots_mut(&mut self) -> &mut Slots<A>
        ensures* writes_back { sem 𝓛 (Lends (the_row A.row A.Allocator) (slots_row A.row A.Allocator) self.entry result
            (λ exchanges. record self.old { exchanges = exchanges })) }
        ensures value { result.now ≡ self.old.exchanges }
    {
        &mut self.slots
    }
}
