//! One customer.
ghost use Rattle.std.specs.Prelude.{◌≡◌, ◌≢◌, ◌↔◌, ◌<◌, [], ◌∷◌, None, Some, IfSome, IsSome, is_some, Contains, length, nat_lt, slice_get, option_copied, option_map};
ghost use Rattle.std.specs.{Option.option_to_list, Borrow.Lends, Borrow.sem};
ghost use Rattle.ntp_customer.specs.Tally.{capped_count, tally};
ghost use Rattle.ntp_customer.specs.Customer.{most_keys, enrolment_of, customer_from, revoked, rebudgeted, rolled_over, retired, enrolment_at, is_enrolled, numbers_of, held_in, with_saved, IsCustomer};
ghost use Rattle.ntp_customer.specs.Past.{Past, queries_in, with_refusal, with_query, short};

use crate::account::Account;
use crate::{NumberedKey, Slots, Window};
use ntp_mac::Key;
use std::alloc::{Allocator, Global};
use std::marker::Model;

/// A customer: an address that was enrolled once, and is enrolled now or revoked. It is kept in `A`.
#[derive(Drop)]
pub struct Customer<A: Allocator = Global> {
    account: Option<Account<A>>,
    // The refusals, as they are counted.
    refusals: Window,
}

impl<A: Allocator> Model for Customer<A> {
    ghost use Rattle.ntp_customer.specs.{Tally.IsTally, Customer.CustomerState};

    ghost Value = { CustomerState };

    ghost view = { λ c. record { account = c.account; refusals = c.refusals } };

    ghost invariant = { λ c. IsTally c.refusals };
}

impl<A: Allocator> Customer<A> {
    ghost use Rattle.ntp_customer.specs.{contracts.customer.Customer.the_row, contracts.slots.Slots.the_row as slots_row};

    /// A customer at its enrolment, with slots that are empty.
    pub fn new(key: NumberedKey, budget: u16, slots: Slots<A>) -> Self
        requires number_given { 0 < key.number }
        requires budget_given { 0 < budget }
        requires empty { slots ≡ [] }
        ensures { result ≡ customer_from (tally []) (enrolment_of key budget) }
    {
        Customer {
            account: Some(Account::new(key, budget, slots)),
            refusals: Window::new(),
        }
    }

    /// Whether the customer is enrolled, and not revoked.
    pub fn is_enrolled(&self) -> bool
        ensures value { result ≡ is_enrolled self.now }
        ensures holds { IsCustomer self.now }
    {
        match &self.account {
            Some(account) => {
                account.is_account();
                true
            }
            None => false,
        }
    }

    /// The keys of an enrolled customer with their numbers, the older one first.
    pub fn keys(&self) -> (NumberedKey, Option<NumberedKey>)
        requires { IsSome (enrolment_at self.now) }
        ensures keys { IfSome (enrolment_at self.now) (λ e. e.keys ≡ result.0 ∷ option_to_list result.1) }
        ensures positive { (0 < result.0.number) × IfSome result.1 (λ newer. 0 < newer.number) }
        ensures apart { IfSome result.1 (λ newer. result.0.number ≢ newer.number) }
    {
        let account = self.account.as_ref().unwrap();
        account.keys()
    }

    /// The number of the older key of an enrolled customer, from 1 to 65,535.
    pub fn number(&self) -> u16
        requires { IsSome (enrolment_at self.now) }
        ensures number { IfSome (enrolment_at self.now) (λ e. option_map (λ older. older.number) (slice_get e.keys 0) ≡ Some result) }
        ensures positive { 0 < result }
    {
        let account = self.account.as_ref().unwrap();
        account.older().number
    }

    /// The older key of an enrolled customer.
    pub fn key(&self) -> &Key
        requires { IsSome (enrolment_at self.now) }
        ensures { IfSome (enrolment_at self.now) (λ e. option_map (λ older. older.key) (slice_get e.keys 0) ≡ Some result.now) }
    {
        let account = self.account.as_ref().unwrap();
        &account.older().key
    }

    /// The key of an enrolled customer with a number, if it holds it.
    pub fn key_for(&self, number: u16) -> Option<&Key>
        requires { IsSome (enrolment_at self.now) }
        ensures key { IfSome (enrolment_at self.now)
            (λ e. option_copied result ≡ option_map (λ held. held.key) (held_in e number)) }
        ensures held { IsSome result ↔ Contains (numbers_of self.now) number }
    {
        let account = self.account.as_ref().unwrap();
        account.key_for(number)
    }

    /// The key of an enrolled customer that a packet names, if it is held. A packet has 32 bits for the
    /// number, and no key has a number of more than 16.
    pub fn held(&self, number: u32) -> Option<&NumberedKey>
        requires { IsSome (enrolment_at self.now) }
        ensures { IfSome (enrolment_at self.now) (λ e. option_copied result ≡ held_in e number) }
    {
        let account = self.account.as_ref().unwrap();
        account.held(number)
    }

    /// Whether an enrolled customer has room for a key more.
    pub fn has_room(&self) -> bool
        requires { IsSome (enrolment_at self.now) }
        ensures { result ≡ nat_lt (length (numbers_of self.now)) most_keys }
    {
        let account = self.account.as_ref().unwrap();
        account.has_room()
    }

    /// The budget of an enrolled customer: how many signed queries of one window are answered with time,
    /// from 1 to 65,535 (profile).
    pub fn budget(&self) -> u16
        requires { IsSome (enrolment_at self.now) }
        ensures budget { IfSome (enrolment_at self.now) (λ e. result ≡ e.budget) }
        ensures positive { 0 < result }
    {
        let account = self.account.as_ref().unwrap();
        account.budget()
    }

    /// Counts a refusal in the window `w`, the 64-second window of its receipt, and gives how many were counted in
    /// it before, at most 65,536 (profile).
    pub fn charge_refusal(&mut self, w: u64) -> u32
        ensures counted { (past : Past) → short past ≡ self.old → result ≡ capped_count past.refusals w }
        ensures after { (past : Past) → short past ≡ self.old → self.new ≡ short (with_refusal past w) }
        ensures enrolment { enrolment_at self.new ≡ enrolment_at self.old }
    {
        self.refusals.charge(w)
    }

    /// Counts a signed query of an enrolled customer in the window `w`, the 64-second window of its receipt, and
    /// gives how many were counted in it before, at most 65,536 (profile).
    pub fn charge_signed(&mut self, w: u64) -> u32
        requires { IsSome (enrolment_at self.old) }
        ensures counted { (past : Past) → short past ≡ self.old → result ≡ capped_count (queries_in past) w }
        ensures after { (past : Past) → short past ≡ self.old → self.new ≡ short (with_query past w) }
        ensures enrolment { enrolment_at self.new ≡ enrolment_at self.old }
    {
        let account = self.account.as_mut().unwrap();
        account.charge(w)
    }

    /// The last exchanges of an enrolled customer.
    pub fn slots(&self) -> &Slots<A>
        requires { IsSome (enrolment_at self.now) }
        ensures { IfSome self.now.account (λ a. result.now ≡ a.exchanges) }
    {
        let account = self.account.as_ref().unwrap();
        account.slots()
    }

    /// The last exchanges of an enrolled customer, to be written to. All else stays as it is.
    pub fn slots_mut(&mut self) -> &mut Slots<A>
        requires { IsSome (enrolment_at self.old) }
        ensures* writes_back { sem 𝓛 (Lends (the_row A.row A.Allocator) (slots_row A.row A.Allocator) self.entry result
            (with_saved self.old)) }
        ensures value { IfSome self.old.account (λ a. result.now ≡ a.exchanges) }
    {
        let account = self.account.as_mut().unwrap();
        account.slots_mut()
    }

    /// Sets the budget of an enrolled customer, and returns whether it is enrolled. All else stays.
    pub fn set_budget(&mut self, budget: u16) -> bool
        requires { 0 < budget }
        ensures enrolled { result ≡ is_enrolled self.old }
        ensures budget { self.new ≡ rebudgeted self.old budget }
    {
        let Some(account) = self.account.as_mut() else {
            return false;
        };
        account.set_budget(budget);
        true
    }

    /// Gives an enrolled customer one key more, under a number that it does not hold. All else stays. Who holds the
    /// number is the register's to say: use its `rollover`.
    pub fn rollover(&mut self, key: NumberedKey)
        requires number_given { 0 < key.number }
        requires enrolled { IsSome (enrolment_at self.old) }
        requires new { IfSome (enrolment_at self.old) (λ e. held_in e key.number ≡ None) }
        requires room { IfSome (enrolment_at self.old) (λ e. length e.keys < most_keys) }
        ensures { self.new ≡ rolled_over self.old key }
    {
        let account = self.account.as_mut().unwrap();
        account.rollover(key);
    }

    /// Takes the key of a number from an enrolled customer that holds another key too. All else stays. That the number
    /// is free is the register's to say: use its `retire`.
    pub fn retire(&mut self, number: u16)
        requires enrolled { IsSome (enrolment_at self.old) }
        requires another { IfSome (enrolment_at self.old) (λ e. 1 < length e.keys) }
        ensures { self.new ≡ retired self.old number }
    {
        let account = self.account.as_mut().unwrap();
        account.retire(number);
    }

    /// Ends the enrolment, if there is one, and gives its key numbers, the older key's first. The counted
    /// refusals stay. That the numbers are free is the register's to say: use its `revoke`.
    pub fn revoke(&mut self) -> Option<(u16, Option<u16>)>
        ensures enrolled { is_some result ≡ is_enrolled self.old }
        ensures numbers { IfSome result (λ freed. numbers_of self.old ≡ freed.0 ∷ option_to_list freed.1) }
        ensures revoked { self.new ≡ revoked self.old }
    {
        self.account.take().map(|ended| ended.numbers())
    }
}
