//! Customers with their terms: those that a clerk wants, and those that a service has.
ghost use Rattle.std.specs.Prelude.{◌≡◌, ◌↔◌, ◌<◌, IfOk, IfSome, IsTrue, option_map};
ghost use Rattle.std.specs.{Int.NonZero.non_zero_u16_get, List.Sorted.IsNonDecreasingBy};
ghost use Rattle.ntp_customer.specs.{Customer.enrolment_at, Customer.held_in, declared.numbered_key.NumberedKey.NumberedKey};
ghost use Rattle.ntp_service.specs.Registry.{terms_at};
ghost use Rattle.ntp_clerk.specs.Leading.{enrolment_with, key_given, AreTwo, HasExactly};

use ntp_mac::{Algorithm, Key};
use ntp_service::{Address, Customer, NumberedKey, Service};
use std::alloc::{AllocError, Global};
use std::num::NonZero;

/// A key with its number.
#[derive(Clone, Copy, PartialEq, Eq)]
pub struct GivenKey {
    /// Its number.
    pub number: NonZero<u16>,
    /// The key, a secret.
    pub key: Key,
}

/// What a customer is enrolled with.
#[derive(Clone, Copy)]
pub struct Terms {
    /// Its older key, or its only one.
    pub older: GivenKey,
    /// Its newer key, if it has two.
    pub newer: Option<GivenKey>,
    /// How many signed queries of a window get the time.
    pub budget: NonZero<u16>,
}

/// A customer that is to be enrolled.
#[derive(Clone, Copy)]
pub struct Wanted {
    pub address: Address,
    /// What it is to be enrolled with.
    pub terms: Terms,
}

/// All customers of a service that are enrolled, by the numbers of their older keys. The memory for them is taken from `alloc`.
pub fn customers_of(alloc: Global, service: &Service) -> Result<Vec<Wanted>, AllocError>
    ensures exactly { IfOk result (λ customers. HasExactly service.now customers.items) }
    ensures order { IfOk result (λ customers. IsNonDecreasingBy (λ w. non_zero_u16_get w.terms.older.number) customers.items) }
{
    // The prover has to see which types stand within a `Wanted`.
    let _types: Option<GivenKey> = None;
    let mut customers = Vec::new(alloc);
    for address in &service.addresses()? {
        if let Some(terms) = terms_at(service, *address) {
            customers.push(Wanted {
                address: *address,
                terms,
            })?;
        }
    }
    customers.sort_by_key(|customer| customer.terms.older.number.get())?;
    Ok(customers)
}

// What an address is enrolled with, if it is.
pub(crate) fn terms_at(service: &Service, address: Address) -> Option<Terms>
    ensures terms { option_map enrolment_with result ≡ terms_at service.now address }
    ensures two { IfSome result AreTwo }
{
    terms_of(service.customer(address)?)
}

/// What a customer is enrolled with; nothing where it is revoked.
pub fn terms_of(customer: &Customer) -> Option<Terms>
    ensures terms { option_map enrolment_with result ≡ enrolment_at customer.now }
    ensures two { IfSome result AreTwo }
{
    if !customer.is_enrolled() {
        return None;
    }
    let (older, newer) = customer.keys();
    Some(Terms {
        older: given(&older),
        newer: newer.map(|newer| given(&newer)),
        budget: NonZero::<u16>::new(customer.budget()).unwrap(),
    })
}

// A key with its number, which is not 0.
fn given(numbered: &NumberedKey) -> GivenKey
    requires { 0 < numbered.now.number }
    ensures { key_given result ≡ numbered.now }
{
    GivenKey {
        number: NonZero::<u16>::new(numbered.number).unwrap(),
        key: numbered.key,
    }
}

/// The algorithm of the key with a number, if these terms have it.
pub fn algorithm_under(terms: &Terms, number: u32) -> Option<Algorithm>
    ensures { result ≡ option_map (λ k. k.key.algorithm) (held_in (enrolment_with terms.now) number) }
{
    if u32::from(terms.older.number.get()) == number {
        return Some(terms.older.key.algorithm());
    }
    match &terms.newer {
        Some(newer) if u32::from(newer.number.get()) == number => Some(newer.key.algorithm()),
        _ => None,
    }
}

// Whether keys are the same, and have one number.
pub(crate) fn are_same_key(one: &GivenKey, other: &GivenKey) -> bool
    ensures { IsTrue result ↔ (key_given one.now ≡ key_given other.now) }
{
    one.number.get() == other.number.get()
        && one.key.algorithm() == other.key.algorithm()
        && one.key.octets() == other.key.octets()
}
