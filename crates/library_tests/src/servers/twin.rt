//! A service beside plain maps.

use crate::servers::scant_service::enrol_answer;
use ntp_mac::{Algorithm, Key};
use ntp_service::{Address, Command, Refusal, Service};
use std::alloc::{AllocError, Allocator, Global};
use std::collections::BTreeMap;
use std::num::NonZero;
use std::test::Fail;

// What is to be in a service.
#[derive(Drop)]
struct Plain {
    // The number of the older key of each address that was ever enrolled, if it is enrolled now.
    customers: BTreeMap<Address, Option<u16>>,
    holders: BTreeMap<u16, Address>,
}

impl Plain {
    // Notes the number of the older key of an address, or that it has none.
    fn set_older(&mut self, address: Address, older: Option<u16>) -> Result<(), AllocError> {
        self.customers.insert(address, older)?;
        Ok(())
    }

    // Notes who holds a number.
    fn set_holder(&mut self, number: u16, address: Address) -> Result<(), AllocError> {
        self.holders.insert(number, address)?;
        Ok(())
    }

    // Notes that nobody holds a number.
    fn free(&mut self, number: u16) {
        self.holders.remove(&number);
    }

    // Notes both of an address that is enrolled.
    fn enrol(&mut self, address: Address, number: u16) -> Result<(), AllocError> {
        self.set_older(address, Some(number))?;
        self.set_holder(number, address)
    }

    // What an address has.
    fn older(&self, address: Address) -> Option<Option<u16>> {
        self.customers.get(&address).copied()
    }

    // Who holds a number.
    fn holder(&self, number: u16) -> Option<Address> {
        self.holders.get(&number).copied()
    }
}

/// A service, and what is to be in it.
#[derive(Drop)]
pub(crate) struct Twin<A: Allocator> {
    service: Service<A>,
    plain: Plain,
    key: Key,
}

/// Addresses that are told apart by the two octets in the middle.
pub(crate) fn address_at(place: u16) -> Address {
    let [high, low] = place.to_be_bytes();
    Address([10, high, low, 1])
}

impl<A: Allocator + Copy> Twin<A> {
    /// An empty one.
    pub(crate) fn new(alloc: A, plain: Global) -> Result<Twin<A>, Fail> {
        let key = Key::new(Algorithm::Md5, b"key")?;
        Ok(Twin {
            service: Service::new(alloc),
            plain: Plain {
                customers: BTreeMap::new(plain),
                holders: BTreeMap::new(plain),
            },
            key,
        })
    }

    /// One with the first `count` customers. The number of each is its place and one.
    pub(crate) fn with_first(alloc: A, plain: Global, count: u16) -> Result<Twin<A>, Fail> {
        let mut twin = Twin::new(alloc, plain)?;
        twin.enrol_first(count)?;
        Ok(twin)
    }

    // Enrols the first customers.
    fn enrol_first(&mut self, count: u16) -> Result<(), Fail> {
        for place in 0..count {
            self.enrol(address_at(place), place + 1)??;
        }
        Ok(())
    }

    /// Enrols an address in both, if the service has the memory.
    pub(crate) fn enrol(
        &mut self,
        address: Address,
        number: u16,
    ) -> Result<Result<(), Refusal>, Fail> {
        let end = enrol_answer(&mut self.service, address, number)?;
        if end.is_ok() {
            self.plain.enrol(address, number)?;
        }
        Ok(end)
    }

    /// Revokes an address with this number in both.
    pub(crate) fn revoke(
        &mut self,
        address: Address,
        number: u16,
    ) -> Result<Result<(), Refusal>, AllocError> {
        let end = self.service.command(&Command::Revoke { address });
        if end.is_ok() {
            self.plain.set_older(address, None)?;
            self.plain.free(number);
        }
        Ok(end)
    }

    /// Gives an address a second key in both, if the service has the memory.
    pub(crate) fn rollover(
        &mut self,
        address: Address,
        number: u16,
    ) -> Result<Result<(), Refusal>, Fail> {
        let end = self.service.command(&Command::Rollover {
            address,
            number: NonZero::<u16>::new(number).ok_or("no number")?,
            key: self.key,
        });
        if end.is_ok() {
            self.plain.set_holder(number, address)?;
        }
        Ok(end)
    }

    /// Takes a number from an address in both, which keeps the other one.
    pub(crate) fn retire(
        &mut self,
        address: Address,
        number: u16,
        other: u16,
    ) -> Result<Result<(), Refusal>, Fail> {
        let taken = NonZero::<u16>::new(number).ok_or("no number")?;
        let end = self.service.command(&Command::Retire {
            address,
            number: taken,
        });
        if end.is_ok() {
            self.plain.set_older(address, Some(other))?;
            self.plain.free(number);
        }
        Ok(end)
    }

    // The number of the older key of an address that was ever enrolled, if it is enrolled now.
    fn number_at(&self, address: Address) -> Option<Option<u16>> {
        let customer = self.service.customer(address)?;
        if customer.is_enrolled() {
            Some(Some(customer.number()))
        } else {
            Some(None)
        }
    }

    // Whether what an address has is told rightly.
    fn is_known(&self, address: Address) -> bool {
        self.number_at(address) == self.plain.older(address)
    }

    /// Whether who holds a number is told rightly.
    pub(crate) fn is_held(&self, number: u16) -> bool {
        self.service.holder(number) == self.plain.holder(number)
    }

    /// Whether an address has a key with a number just where it is to hold that.
    pub(crate) fn has_own_key(&self, address: Address, number: u16) -> bool {
        let has_key = match self.service.customer(address) {
            Some(customer) => customer.is_enrolled() && customer.key_for(number).is_some(),
            None => false,
        };
        has_key == (self.plain.holder(number) == Some(address))
    }

    /// Whether what is asked of an address and of a number is answered as it is to be.
    pub(crate) fn is_told(&self, address: Address, number: u16) -> bool {
        self.is_known(address) && self.is_held(number) && self.has_own_key(address, number)
    }

    /// Whether so is all that can be asked of the first addresses.
    pub(crate) fn are_first_told(&self, addresses: u16) -> bool {
        (0..addresses).all(|place| self.is_told(address_at(place), place))
    }

    /// The same, and of each number.
    pub(crate) fn are_told(&self, addresses: u16) -> bool {
        self.are_first_told(addresses)
            && self.is_told(Address([192, 0, 2, 10]), u16::MAX)
            && self
                .plain
                .holders
                .iter()
                .all(|(number, address)| self.is_told(*address, *number))
            && self.held() == self.plain.holders.len()
    }

    // How many numbers have a holder.
    fn held(&self) -> usize {
        (0..=u16::MAX)
            .filter(|number| self.service.holder(*number).is_some())
            .count()
    }
}
