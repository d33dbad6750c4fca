//! The two tables of a register: its customers, and the holders of key numbers. Nothing else opens them.
ghost use Rattle.std.specs.Prelude.{◌≡◌, ◌↔◌, ◌∷◌, None, Contains, IsSome, IfOk, IsOk, OnOk, OnErr, option_copied};
ghost use Rattle.std.specs.{Option.option_copied_mut, Option.option_to_list, Borrow.LendsIf, Borrow.sem};

use crate::{Address, Customer};
use indexmap::IndexMap;
use std::alloc::{AllocError, Allocator, Global};
use std::hash::{BuildHasherDefault, FoldHasher};
use std::marker::Model;

// How keys are hashed. A look-up probes only what the clerk enrolled, so no sender of datagrams lengthens it.
type Hashing = BuildHasherDefault<FoldHasher>;

/// The customers of a service by address, and who holds each key number. It is kept in `A`.
#[derive(Drop)]
pub struct Register<A: Allocator = Global> {
    customers: IndexMap<Address, Customer<A>, Hashing, A>,
    holders: IndexMap<u16, Address, Hashing, A>,
}

impl<A: Allocator> Model for Register<A> {
    ghost use Rattle.std.specs.Coded.{codes};
    ghost use Rattle.std.specs.FinMap as map;
    ghost use Rattle.ntp_service.specs.Registry.{Registry};

    ghost Value = { Registry };

    ghost coded = { Prim.hlevel (codes, map.code) };

    ghost view = { λ r. record {
      customers = map.from_entries r.customers.entries;
      holders = map.from_entries r.holders.entries;
    } };
}

impl<A: Allocator + Copy> Register<A> {
    ghost use Rattle.ntp_service.specs.Registry.{Agrees, empty_registry, customer_at, holder_of, with_customer, with_holder, without_holder, without_holders};
    ghost use Rattle.ntp_service.specs.{declared.address.Address.Address, contracts.store.Register.the_row};
    ghost use Rattle.ntp_customer.specs.contracts.customer.Customer.{the_row as customer_row};

    /// An empty register, which will take its memory from `alloc`.
    pub fn new(alloc: A) -> Self
        ensures empty { result ≡ empty_registry }
        ensures agrees { Agrees result }
    {
        Register {
            customers: IndexMap::new(alloc),
            holders: IndexMap::new(alloc),
        }
    }

    /// The address that is enrolled with a key number, if one is.
    pub fn holder(&self, number: u16) -> Option<Address>
        ensures { result ≡ holder_of self.now number }
    {
        self.holders.get(&number).copied()
    }

    /// The addresses that were ever enrolled, in the order of their first enrolments.
    pub fn addresses(&self) -> Result<Vec<Address, A>, AllocError>
        ensures { IfOk result (λ addresses. (address : Address) → Contains addresses.items address ↔ IsSome (customer_at self.now address)) }
    {
        let mut addresses = Vec::new(self.allocator());
        for address in self.customers.keys() {
            addresses.push(*address)?;
        }
        Ok(addresses)
    }

    /// The customer at an address: none exactly where the address was never enrolled.
    pub fn customer(&self, address: Address) -> Option<&Customer<A>>
        ensures { option_copied result ≡ customer_at self.now address }
    {
        self.customers.get(&address)
    }

    /// The customer at an address, to be written to: none exactly where the address was never enrolled.
    /// All other customers and all holders stay as they are.
    pub fn customer_mut(&mut self, address: Address) -> Option<&mut Customer<A>>
        ensures* writes_back { sem 𝓛 (LendsIf (the_row A.row A.Allocator) (customer_row A.row A.Allocator) self.entry result
            (with_customer self.old address) self.old) }
        ensures value { option_copied_mut result ≡ customer_at self.old address }
    {
        self.customers.get_mut(&address)
    }

    // The allocator from which the register takes its memory.
    pub(crate) fn allocator(&self) -> A {
        *self.customers.allocator()
    }

    // Puts a customer at an address. One that is there already is replaced, which takes no memory.
    pub(crate) fn put_customer(
        &mut self,
        address: Address,
        customer: Customer<A>,
    ) -> Result<(), AllocError>
        ensures replaced { IsSome (customer_at self.old address) → IsOk result }
        ensures ok { OnOk result (self.new ≡ with_customer self.old address customer) }
        ensures err { OnErr result (self.new ≡ self.old) }
    {
        self.customers.insert(address, customer)?;
        Ok(())
    }

    // Makes the address the holder of a number that is free.
    pub(crate) fn put_holder(&mut self, number: u16, address: Address) -> Result<(), AllocError>
        requires { holder_of self.old number ≡ None }
        ensures ok { OnOk result (self.new ≡ with_holder self.old number address) }
        ensures err { OnErr result (self.new ≡ self.old) }
    {
        self.holders.insert(number, address)?;
        Ok(())
    }

    // Frees a number.
    pub(crate) fn take_holder(&mut self, number: u16)
        ensures { self.new ≡ without_holder self.old number }
    {
        self.holders.swap_remove(&number);
    }

    // Frees the numbers of a customer that was revoked.
    pub(crate) fn take_holders(&mut self, older: u16, newer: Option<u16>)
        ensures { self.new ≡ without_holders self.old (older ∷ option_to_list newer) }
    {
        self.take_holder(older);
        if let Some(newer) = newer {
            self.take_holder(newer);
        }
    }
}
