//! A service, one event at a time.
ghost use Rattle.std.specs.Prelude.{◌≡◌, ◌↔◌, ◌≤◌, List, [], length, Contains, IsNone, IsSome, IsTrue, IfOk, OnErr, option_copied};
ghost use Rattle.std.specs.Bool.{OnFalse};
ghost use Rattle.ntp_service.specs.Registry.{customer_at, holder_of, Agrees, AnswersCommand};
ghost use Rattle.ntp_service.specs.{declared.address.Address.Address, declared.event.Event.Event, Events.own};
ghost use Rattle.ntp_service.specs.Forgery.{is_genuine, genuine};
ghost use Rattle.ntp_reply.specs.Verdict.{reply_length};
ghost use Rattle.ntp_service.specs.Model.{departure_outcome, life_of, answer_to};
ghost use Rattle.ntp_service.specs.Headline.{StandsFor, TellsOne, IsTaken, command_outcome};

use crate::{Address, Command, Customer, Event, Outcome, Refusal, Register};
use ntp_packet::{Moment, Stamp};
use ntp_reply::{Answer, Reason, Reference, answer_octets, depart};
use std::alloc::{AllocError, Allocator, Global};
use std::marker::Model;

/// A service for registered customers. Contracts see what each address has, and who holds each number.
#[derive(Drop)]
pub struct Service<A: Allocator = Global> {
    alloc: A,
    register: Register<A>,
}

impl<A: Allocator> Model for Service<A> {
    ghost use Rattle.std.specs.Coded.{codes};
    ghost use Rattle.std.specs.FinMap as map;
    ghost use Rattle.ntp_service.specs.Registry.{Registry, Agrees};

    ghost Value = { Registry };

    ghost coded = { Prim.hlevel (codes, map.code) };

    ghost view = { λ s. s.register };

    ghost invariant = { λ s. Agrees s.register };
}

impl<A: Allocator + Copy> Service<A> {
    /// A service with no customers.
    pub fn new(alloc: A) -> Service<A>
        ensures { StandsFor {A = A} result [] }
    {
        Service {
            alloc,
            register: Register::new(alloc),
        }
    }

    /// The allocator from which the service takes its memory.
    pub fn allocator(&self) -> A {
        self.alloc
    }

    /// The addresses that were ever enrolled, in the order of their first enrolments.
    pub fn addresses(&self) -> Result<Vec<Address, A>, AllocError>
        ensures { IfOk result (λ addresses. (address : Address) → Contains addresses.items address ↔ IsSome (customer_at self.now address)) }
    {
        self.register.addresses()
    }

    /// The address that is enrolled with a key number, if one is.
    pub fn holder(&self, number: u16) -> Option<Address>
        ensures { result ≡ holder_of self.now number }
    {
        self.register.holder(number)
    }

    /// The customer at an address: none exactly where the address was never enrolled.
    pub fn customer(&self, address: Address) -> Option<&Customer<A>>
        ensures { option_copied result ≡ customer_at self.now address }
    {
        self.register.customer(address)
    }

    /// The answer to a datagram that came from an address at `receipt`, to which a reply departs at
    /// `transmit`. It takes no memory. An address that was never enrolled gets no reply and no entry.
    ///
    /// A query is signed where its MAC is under one of the customer's keys. A signed query is answered as if no datagram
    /// that was not a signed query had come from its address before. A replay of a signed datagram is not told from the
    /// first: it counts as signed, and spends the budget.
    pub fn datagram(
        &mut self,
        address: Address,
        receipt: Moment,
        transmit: Moment,
        reference: &Reference,
        octets: &[u8],
    ) -> Answer
        // The answer is that of the customer's own events, and the service goes on to stand for one more.
        ensures tells { (history : List (Event A)) → StandsFor self.old history
            → TellsOne history (Event.Datagram address receipt transmit reference.now octets.now) (Outcome.Datagram result) self.new }
        ensures forgeries { (history : List (Event A)) → StandsFor self.old history
            → let query = Event.Datagram address receipt transmit reference.now octets.now in
            IsTrue (is_genuine {A = A} (life_of (own address history)) query)
            → Outcome.Datagram result ≡ answer_to {A = A} (life_of (genuine (own address history))) query }
        ensures no_entry { IsNone (customer_at self.old address) → self.new ≡ self.old }
        ensures no_longer { reply_length result ≤ length octets.now }
    {
        let Some(customer) = self.register.customer_mut(address) else {
            return Answer::Silent(Reason::Unregistered);
        };
        answer_octets(customer, receipt, transmit, reference, octets)
    }

    /// A reply to an address, whose receive stamp was `receive`, left at `moment`. Where the exchange is saved and unused, a
    /// later reply can carry that moment's stamp, and the answer is `true` (profile, after RFC 9769). Otherwise the answer is
    /// `false` and nothing changes. It takes no memory.
    pub fn departed(&mut self, address: Address, receive: Stamp, moment: Moment) -> bool
        ensures tells { (history : List (Event A)) → StandsFor self.old history
            → TellsOne history (Event.Departed address receive moment) (departure_outcome result) self.new }
        ensures unchanged { OnFalse result (self.new ≡ self.old) }
        ensures no_entry { IsNone (customer_at self.old address) → self.new ≡ self.old }
    {
        let Some(receiver) = self.register.customer_mut(address) else {
            return false;
        };
        depart(receiver, receive, moment)
    }

    /// Carries a command out, or refuses it and changes nothing. `NoMemory` comes last, of an enrolment or
    /// a rollover alone.
    pub fn command(&mut self, command: &Command) -> Result<(), Refusal>
        ensures tells { (history : List (Event A)) → StandsFor self.old history
            → TellsOne history (Event.Command command.now) (command_outcome result) self.new }
        ensures taken { (history : List (Event A)) → StandsFor self.old history
            → (result ≡ Err Refusal.KeyTaken) ↔ IsTaken history (Event.Command command.now) }
        ensures answers { AnswersCommand self.old self.new command.now result }
        ensures agrees { Agrees self.new }
        ensures refused { OnErr result (self.new ≡ self.old) }
    {
        self.register.carry_out(command)
    }

    /// The outcome of one event: what `datagram`, `departed` or `command` answers to it.
    pub fn apply(&mut self, event: &Event<A>) -> Outcome
        ensures { (history : List (Event A)) → StandsFor self.old history → TellsOne history event.now result self.new }
    {
        match event {
            Event::Datagram {
                address,
                receipt,
                transmit,
                reference,
                octets,
            } => Outcome::Datagram(self.datagram(
                *address,
                *receipt,
                *transmit,
                reference,
                octets.as_slice(),
            )),
            Event::Departed {
                address,
                receive,
                moment,
            } => outcome_of_departure(self.departed(*address, *receive, *moment)),
            Event::Command(command) => outcome_of(self.command(command)),
        }
    }
}

// The outcome of a report of a departure.
fn outcome_of_departure(noted: bool) -> Outcome
    ensures { result ≡ departure_outcome noted }
{
    if noted {
        Outcome::Noted
    } else {
        Outcome::NotNoted
    }
}

// The outcome of a command.
fn outcome_of(answer: Result<(), Refusal>) -> Outcome
    ensures { result ≡ command_outcome answer }
{
    match answer {
        Ok(()) => Outcome::Done,
        Err(refusal) => Outcome::Refused(refusal),
    }
}
