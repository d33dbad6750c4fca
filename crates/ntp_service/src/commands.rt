//! What a register does on commands. A refused command changes nothing. Each asks that the customers and
//! the holders agree: a customer is enrolled with a number exactly where that number's holder is its
//! address. Each keeps that.
ghost use Rattle.std.specs.Prelude.{◌≡◌, ◌<◌, Some, None, Err, OnOk, OnErr, IfSome, IsSome, is_some, if◌then◌else◌, option_copied};
ghost use Rattle.std.specs.{Option.option_map_or, Int.NonZero.non_zero_u16_get, declared.num.NonZeroU16.NonZeroU16};
ghost use Rattle.ntp_customer.specs.Customer.{enrolment_at};
ghost use Rattle.ntp_service.specs.Commands.{number_wanted, rollover_refusal, retire_refusal};
ghost use Rattle.ntp_service.specs.Registry.{Agrees, AnswersCommand, terms_at, is_enrolled_at, holder_of, after_command, own_refusal, holder_in_way};

use crate::{Address, Command, Customer, NumberedKey, Refusal, Register};
use ntp_customer::{NoMemory, Slots};
use ntp_mac::Key;
use std::alloc::Allocator;
use std::num::NonZero;

impl<A: Allocator + Copy> Register<A> {
    /// Carries a command out, or refuses it and changes nothing.
    ///
    /// What its own address has may refuse it, as the call for each command says; else `KeyTaken`, where another
    /// address holds the number that it asks for; else want of memory, and that only where it asks for a number.
    pub fn carry_out(&mut self, command: &Command) -> Result<(), Refusal>
        requires { Agrees self.old }
        ensures answers { AnswersCommand self.old self.new command.now result }
        ensures agrees { Agrees self.new }
    {
        if let Some(refusal) = self.own_refusal(command) {
            return Err(refusal);
        }
        if self.holder_in_way(command).is_some() {
            return Err(Refusal::KeyTaken);
        }
        self.do_command(command)?;
        Ok(())
    }

    /// Enrols an address with a key, its number and a budget. A revoked address may be enrolled
    /// again, and begins as a new customer.
    ///
    /// Refused in this order: `AlreadyEnrolled`, `KeyTaken`, `NoMemory`.
    pub fn enrol(
        &mut self,
        address: Address,
        number: u16,
        key: Key,
        budget: u16,
    ) -> Result<(), Refusal>
        requires number_given { 0 < number }
        requires budget_given { 0 < budget }
        requires agrees { Agrees self.old }
        ensures answers { (n : NonZeroU16) × (b : NonZeroU16) × (non_zero_u16_get n ≡ number) × (non_zero_u16_get b ≡ budget)
            × AnswersCommand self.old self.new (Command.Enrol address n key b) result }
        ensures agrees { Agrees self.new }
    {
        self.carry_out(&Command::Enrol {
            address,
            number: NonZero::<u16>::new(number).unwrap(),
            key,
            budget: NonZero::<u16>::new(budget).unwrap(),
        })
    }

    /// Revokes an enrolled address: its key numbers are free again.
    ///
    /// Refused with `NotEnrolled` alone.
    pub fn revoke(&mut self, address: Address) -> Result<(), Refusal>
        requires { Agrees self.old }
        ensures answers { AnswersCommand self.old self.new (Command.Revoke address) result }
        ensures agrees { Agrees self.new }
    {
        self.carry_out(&Command::Revoke { address })
    }

    /// Gives an enrolled address another budget. What was counted and what is saved stays, and the budget may change while
    /// a window runs.
    ///
    /// Refused with `NotEnrolled` alone.
    pub fn set_budget(&mut self, address: Address, budget: u16) -> Result<(), Refusal>
        requires budget_given { 0 < budget }
        requires agrees { Agrees self.old }
        ensures answers { (b : NonZeroU16) × (non_zero_u16_get b ≡ budget) × AnswersCommand self.old self.new (Command.Budget address b) result }
        ensures agrees { Agrees self.new }
    {
        self.carry_out(&Command::Budget {
            address,
            budget: NonZero::<u16>::new(budget).unwrap(),
        })
    }

    /// Gives an enrolled address a newer key beside its only one, under another number, which nobody holds.
    /// What was counted and what is saved stays.
    ///
    /// Refused in this order: `NotEnrolled`, `SameNumber`, `RoomFull`, `KeyTaken`, `NoMemory`.
    pub fn rollover(&mut self, address: Address, number: u16, key: Key) -> Result<(), Refusal>
        requires number_given { 0 < number }
        requires agrees { Agrees self.old }
        ensures answers { (n : NonZeroU16) × (non_zero_u16_get n ≡ number) × AnswersCommand self.old self.new (Command.Rollover address n key) result }
        ensures agrees { Agrees self.new }
    {
        self.carry_out(&Command::Rollover {
            address,
            number: NonZero::<u16>::new(number).unwrap(),
            key,
        })
    }

    /// Takes the key of a number from an enrolled address that holds another key too: the number is free
    /// again. What was counted and what is saved stays.
    ///
    /// Refused in this order: `NotEnrolled`, `NotHeld`, `OnlyKey`. It takes no memory.
    pub fn retire(&mut self, address: Address, number: u16) -> Result<(), Refusal>
        requires { Agrees self.old }
        ensures answers { 0 < number → (n : NonZeroU16) × (non_zero_u16_get n ≡ number)
            × AnswersCommand self.old self.new (Command.Retire address n) result }
        // Nobody holds 0.
        ensures zero { number ≡ 0 → (result ≡ Err (if is_enrolled_at self.old address then Refusal.NotHeld else Refusal.NotEnrolled))
            × (self.new ≡ self.old) }
        ensures agrees { Agrees self.new }
    {
        match NonZero::<u16>::new(number) {
            Some(number) => self.carry_out(&Command::Retire { address, number }),
            None if self.enrolled(address).is_some() => Err(Refusal::NotHeld),
            None => Err(Refusal::NotEnrolled),
        }
    }

    // Why a command is refused by what its own address has.
    fn own_refusal(&self, command: &Command) -> Option<Refusal>
        ensures { result ≡ own_refusal self.now command.now }
    {
        let Some(customer) = self.enrolled(command.address()) else {
            return match command {
                Command::Enrol { .. } => None,
                _ => Some(Refusal::NotEnrolled),
            };
        };
        match command {
            Command::Enrol { .. } => Some(Refusal::AlreadyEnrolled),
            Command::Rollover { number, .. } => rollover_refusal(customer, number.get()),
            Command::Retire { number, .. } => retire_refusal(customer, number.get()),
            _ => None,
        }
    }

    // The holder of the number that a command asks for.
    fn holder_in_way(&self, command: &Command) -> Option<Address>
        ensures { result ≡ holder_in_way self.now command.now }
    {
        let number = command.number_wanted()?;
        self.holder(number.get())
    }

    // Does what a command says, where neither its own address nor another is in the way.
    fn do_command(&mut self, command: &Command) -> Result<(), NoMemory>
        requires own { own_refusal self.old command.now ≡ None }
        requires free { holder_in_way self.old command.now ≡ None }
        ensures done { OnOk result (self.new ≡ after_command self.old command.now) }
        ensures kept { OnErr result ((self.new ≡ self.old) × IsSome (number_wanted command.now)) }
    {
        match *command {
            Command::Enrol {
                address,
                number,
                key,
                budget,
            } => return self.admit(address, number, key, budget),
            Command::Revoke { address } => self.dismiss(address),
            Command::Budget { address, budget } => self.rebudget(address, budget),
            Command::Rollover {
                address,
                number,
                key,
            } => return self.add_key(address, number, key),
            Command::Retire { address, number } => self.drop_key(address, number),
        }
        Ok(())
    }

    // Enrols an address. The slots are made anew, and before anything changes, so that where they find no memory
    // all is as it was; where the customer finds none, the number is freed again.
    fn admit(
        &mut self,
        address: Address,
        number: NonZero<u16>,
        key: Key,
        budget: NonZero<u16>,
    ) -> Result<(), NoMemory>
        requires own { own_refusal self.old (Command.Enrol address number key budget) ≡ None }
        requires free { holder_of self.old (non_zero_u16_get number) ≡ None }
        ensures done { OnOk result (self.new ≡ after_command self.old (Command.Enrol address number key budget)) }
        ensures kept { OnErr result (self.new ≡ self.old) }
    {
        let number = number.get();
        let slots = Slots::new(self.allocator())?;
        self.put_holder(number, address)?;
        let customer = Customer::new(NumberedKey { number, key }, budget.get(), slots);
        match self.put_customer(address, customer) {
            Ok(()) => Ok(()),
            Err(refused) => {
                self.take_holder(number);
                Err(NoMemory::from(refused))
            }
        }
    }

    // Ends the enrolment of an address, and frees its numbers.
    fn dismiss(&mut self, address: Address)
        requires { own_refusal self.old (Command.Revoke address) ≡ None }
        ensures { self.new ≡ after_command self.old (Command.Revoke address) }
    {
        let customer = self.customer_mut(address).unwrap();
        let (older, newer) = customer.revoke().unwrap();
        self.take_holders(older, newer);
    }

    // Gives an address another budget.
    fn rebudget(&mut self, address: Address, budget: NonZero<u16>)
        requires { own_refusal self.old (Command.Budget address budget) ≡ None }
        ensures { self.new ≡ after_command self.old (Command.Budget address budget) }
    {
        let customer = self.customer_mut(address).unwrap();
        customer.set_budget(budget.get());
    }

    // Gives an address a key more. Only the holders grow, and before the customer is touched: where they find no
    // memory, all is as it was.
    fn add_key(&mut self, address: Address, number: NonZero<u16>, key: Key) -> Result<(), NoMemory>
        requires own { own_refusal self.old (Command.Rollover address number key) ≡ None }
        requires free { holder_of self.old (non_zero_u16_get number) ≡ None }
        ensures done { OnOk result (self.new ≡ after_command self.old (Command.Rollover address number key)) }
        ensures kept { OnErr result (self.new ≡ self.old) }
    {
        let newer = NumberedKey {
            number: number.get(),
            key,
        };
        self.put_holder(newer.number, address)?;
        let customer = self.customer_mut(address).unwrap();
        customer.rollover(newer);
        Ok(())
    }

    // Takes the key of a number from an address, and frees the number.
    fn drop_key(&mut self, address: Address, number: NonZero<u16>)
        requires { own_refusal self.old (Command.Retire address number) ≡ None }
        ensures { self.new ≡ after_command self.old (Command.Retire address number) }
    {
        let number = number.get();
        let customer = self.customer_mut(address).unwrap();
        customer.retire(number);
        self.take_holder(number);
    }

    // The customer at an address that is enrolled now.
    fn enrolled(&self, address: Address) -> Option<&Customer<A>>
        ensures terms { option_map_or enrolment_at (option_copied result) None ≡ terms_at self.now address }
        ensures enrolled { is_some result ≡ is_enrolled_at self.now address }
    {
        self.customer(address)
            .filter(|customer| customer.is_enrolled())
    }
}

// Why a rollover of a customer to this number is refused, whoever else holds the number.
fn rollover_refusal<A: Allocator>(customer: &Customer<A>, number: u16) -> Option<Refusal>
    requires { IsSome (enrolment_at customer.now) }
    ensures { IfSome (enrolment_at customer.now) (λ e. result ≡ rollover_refusal e number) }
{
    if customer.key_for(number).is_some() {
        return Some(Refusal::SameNumber);
    }
    if !customer.has_room() {
        return Some(Refusal::RoomFull);
    }
    None
}

// Why the key of this number is not taken from a customer.
fn retire_refusal<A: Allocator>(customer: &Customer<A>, number: u16) -> Option<Refusal>
    requires { IsSome (enrolment_at customer.now) }
    ensures { IfSome (enrolment_at customer.now) (λ e. result ≡ retire_refusal e number) }
{
    if customer.key_for(number).is_none() {
        return Some(Refusal::NotHeld);
    }
    if customer.has_room() {
        return Some(Refusal::OnlyKey);
    }
    None
}
