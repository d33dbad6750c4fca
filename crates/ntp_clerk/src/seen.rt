//! What is seen of customers, all but the octets of their keys, and how that is shown.
ghost use Rattle.std.specs.Prelude.{◌≡◌, ◌≢◌, ◌↔◌, ◌<◌, Some, IfSome, IfNone, IsTrue};
ghost use Rattle.ntp_service.specs.Registry.{customer_at};
ghost use Rattle.ntp_clerk.specs.Leading.{key_given};
ghost use Rattle.ntp_clerk.specs.Seen.{seen_key, seen_terms, IsSeen};

use crate::command_text::algorithm_word;
use crate::wanted::{GivenKey, Terms, terms_of};
use ntp_mac::Algorithm;
use ntp_service::{Address, Service};
use std::fmt::{self, Display};

/// A key as it is seen: without its octets.
#[derive(Clone, Copy, PartialEq, Eq)]
pub struct SeenKey {
    /// Its number.
    pub number: u16,
    /// The digest that it is for.
    pub algorithm: Algorithm,
    /// How many octets it has.
    pub octets: u64,
}

/// What a customer is seen to be enrolled with.
#[derive(Clone, Copy, PartialEq, Eq)]
pub struct SeenTerms {
    /// Its older key, or its only one.
    pub older: SeenKey,
    /// Its newer key, if it has two.
    pub newer: Option<SeenKey>,
    /// How many signed queries are answered with the time in a window.
    pub budget: u16,
}

/// What an address is seen to have.
#[derive(Clone, Copy, PartialEq, Eq)]
pub enum Seen {
    /// It was never enrolled.
    Nothing,
    Revoked,
    Enrolled(SeenTerms),
}

/// What is seen of an address.
pub fn seen_at(service: &Service, address: Address) -> Seen
    ensures { IsSeen (customer_at service.now address) result }
{
    let Some(customer) = service.customer(address) else {
        return Seen::Nothing;
    };
    match terms_of(customer) {
        None => Seen::Revoked,
        Some(terms) => Seen::Enrolled(seen_terms(&terms)),
    }
}

/// What is seen of terms.
pub fn seen_terms(terms: &Terms) -> SeenTerms
    ensures { result ≡ seen_terms terms.now }
{
    SeenTerms {
        older: seen_key(&terms.older),
        newer: terms.newer.map(|newer| seen_key(&newer)),
        budget: terms.budget.get(),
    }
}

// What is seen of a key.
fn seen_key(given: &GivenKey) -> SeenKey
    ensures { result ≡ seen_key (key_given given.now) }
{
    SeenKey {
        number: given.number.get(),
        algorithm: given.key.algorithm(),
        octets: given.key.octet_count() as u64,
    }
}

/// An address at which labntpd has something else than the commands file.
#[derive(Clone, Copy)]
pub struct Difference {
    /// The customer's address.
    pub address: Address,
    /// What labntpd has.
    pub daemon: Seen,
    /// What the commands file comes to.
    pub file: Seen,
}

/// How an address of a service differs from what labntpd reports of it, if it does.
pub fn differing_at(service: &Service, address: Address, daemon: Seen) -> Option<Difference>
    ensures differs { IfSome result (λ d. (d.address ≡ address) × (d.daemon ≡ daemon) × IsSeen (customer_at service.now address) d.file × (d.daemon ≢ d.file)) }
    ensures none { IfNone result (IsSeen (customer_at service.now address) daemon) }
{
    let file = seen_at(service, address);
    if are_same(&daemon, &file) {
        return None;
    }
    Some(Difference {
        address,
        daemon,
        file,
    })
}

// Whether the same is seen.
fn are_same(one: &Seen, other: &Seen) -> bool
    ensures { IsTrue result ↔ (one.now ≡ other.now) }
{
    one == other
}

/// Whether the keys of terms are seen alike, whatever their budgets are.
pub fn have_same_keys(one: &SeenTerms, other: &SeenTerms) -> bool
    ensures { IsTrue result ↔ ((one.now.older ≡ other.now.older) × (one.now.newer ≡ other.now.newer)) }
{
    one.older == other.older && one.newer == other.newer
}

/// An address as text.
#[derive(Clone, Copy)]
pub struct Dotted(pub Address);

impl Display for Dotted {
    fn fmt<W: fmt::Write>(&self, f: &mut fmt::Formatter<W>) -> fmt::Result {
        let Address([a, b, c, d]) = self.0;
        write!(f, "{a}.{b}.{c}.{d}")
    }
}

/// The keys of a customer, without their octets: `key 7 (md5, 3 octets)`.
#[derive(Clone, Copy)]
pub struct Keys(pub SeenTerms);

impl Display for Keys {
    fn fmt<W: fmt::Write>(&self, f: &mut fmt::Formatter<W>) -> fmt::Result {
        let Keys(SeenTerms { older, newer, .. }) = *self;
        match newer {
            None => write!(f, "key {older}"),
            Some(newer) => write!(f, "keys {older} and {newer}"),
        }
    }
}

/// Writes its number, its algorithm and how many octets it has.
impl Display for SeenKey {
    fn fmt<W: fmt::Write>(&self, f: &mut fmt::Formatter<W>) -> fmt::Result {
        let (number, octets) = (self.number, self.octets);
        let algorithm = algorithm_word(self.algorithm);
        write!(f, "{number} ({algorithm}, {octets} octets)")
    }
}

/// Writes a line, or two where budget and keys differ.
impl Display for Difference {
    fn fmt<W: fmt::Write>(&self, f: &mut fmt::Formatter<W>) -> fmt::Result {
        let address = Dotted(self.address);
        let (Seen::Enrolled(daemon), Seen::Enrolled(file)) = (self.daemon, self.file) else {
            let (daemon, file) = (state_word(&self.daemon), state_word(&self.file));
            return writeln!(
                f,
                "{address}: {daemon} at labntpd, {file} in the commands file"
            );
        };
        if daemon.budget != file.budget {
            let (one, other) = (daemon.budget, file.budget);
            writeln!(
                f,
                "{address}: labntpd has budget {one}, the commands file {other}"
            )?;
        }
        if !have_same_keys(&daemon, &file) {
            let (one, other) = (Keys(daemon), Keys(file));
            writeln!(f, "{address}: labntpd has {one}, the commands file {other}")?;
        }
        Ok(())
    }
}

// Returns the word for what an address has.
fn state_word(seen: &Seen) -> &'static str {
    match seen {
        Seen::Nothing => "unknown",
        Seen::Revoked => "revoked",
        Seen::Enrolled(_) => "enrolled",
    }
}
