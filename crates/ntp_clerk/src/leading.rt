//! The commands that lead from the customers of a service to others.
ghost use Rattle.std.specs.Prelude.{◌≡◌, ◌≢◌, ◌↔◌, ℕ, ◌++◌, [], ◌∷◌, false, All, Contains, None, Some, Err, IfErr, IfOk, IfSome, IsSome, IsTrue, OnOk, nat_eq, option_map};
ghost use Rattle.indexmap.specs.{IndexMap.get, IndexSet.contains};
ghost use Rattle.ntp_service.specs.{Address.address_eq, Commands.address_named, Registry.terms_at, Registry.after_command, Registry.Agrees, declared.address.Address.Address};
ghost use Rattle.ntp_service.specs.declared.command.Command.TheVariants as command;
ghost use Rattle.ntp_clerk.specs.Leading.{ends, enrolment_among, enrolment_with, key_given, AreApart, AreTwo, HasExactly, HasMoved, HasNumber, Holds, IsNeeded, IsNeededAt, LeadsTo, Makes, NobodyIsForgotten};
ghost use Rattle.ntp_clerk.specs.Steps.{done_in, rebudgeting, AreDone, CanDo, CanDoAll, Frees, Goes, Notes, NotesOne, Moves, OnlyWanted, Revokes};

use crate::wanted::{GivenKey, Terms, Wanted, are_same_key, customers_of, terms_at};
use indexmap::{IndexMap, IndexSet};
use ntp_mac::Key;
use ntp_service::{Address, Command, Refusal, Service};
use std::alloc::{AllocError, Global};
use std::hash::{BuildHasherDefault, FoldHasher};
use std::num::NonZero;

// How addresses and numbers are hashed, as the register's are.
type Hashing = BuildHasherDefault<FoldHasher>;

/// Values by the addresses of customers.
pub type ByAddress<T> = IndexMap<Address, T, Hashing>;

// The numbers of keys that are wanted.
type Numbers = IndexSet<u16, Hashing>;

/// Why no commands lead to wanted customers.
#[derive(Clone, Copy, Debug, PartialEq, Eq)]
pub enum LeadFault {
    /// Two of them have this address.
    SameAddress(Address),
    /// Two of their keys have this number.
    SameNumber(u16),
    /// The service refuses it: a customer that moves is not enrolled, or its new address is.
    Refused(Refusal),
    /// Memory ran out.
    NoMemory,
}

impl From<AllocError> for LeadFault {
    ghost use Rattle.ntp_clerk.specs.declared.leading.LeadFault.TheVariants.{NoMemory};

    ghost from_gives = { λ _ fault. fault ≡ NoMemory };

    fn from(_error: AllocError) -> LeadFault {
        LeadFault::NoMemory
    }
}

/// The commands that lead from the customers of a service to the wanted ones. The service does each, and has these customers then.
/// Who keeps a key is neither revoked nor enrolled anew. Where no address and no number is wanted twice, nothing but want of memory
/// stops it, and leaves the service half changed.
pub fn commands_to(
    alloc: Global,
    service: &mut Service,
    wanted: &[Wanted],
) -> Result<Vec<Command>, LeadFault>
    ensures leads { IfOk result (λ commands. LeadsTo service.old commands.items service.new) }
    ensures exactly { OnOk result (HasExactly service.new wanted.now) }
    ensures needed { IfOk result (λ commands. All (IsNeeded service.old wanted.now) commands.items) }
    ensures known { OnOk result (NobodyIsForgotten service.old service.new) }
    ensures apart { OnOk result (AreApart wanted.now) }
    ensures fault { AreApart wanted.now → IfErr result (λ fault. fault ≡ LeadFault.NoMemory) }
{
    let terms = judged(alloc, wanted)?;
    let mut commands = Vec::new(alloc);
    for address in &service.addresses()? {
        let terms = terms.get(address).copied();
        free(service, &mut commands, *address, &terms)?;
    }
    for customer in wanted {
        give(service, &mut commands, customer.address, &customer.terms)?;
    }
    Ok(commands)
}

/// The commands that give a customer another address, with its keys and its budget. The service does each. Where the customer is
/// enrolled and the other address is not, nothing but want of memory stops it, and leaves the service half changed.
pub fn commands_to_move(
    alloc: Global,
    service: &mut Service,
    from: Address,
    to: Address,
) -> Result<Vec<Command>, LeadFault>
    ensures leads { IfOk result (λ commands. LeadsTo service.old commands.items service.new) }
    ensures moves { OnOk result (HasMoved service.old from to service.new) }
    ensures taken { IsSome (terms_at service.old to) → result ≡ Err (LeadFault.Refused Refusal.AlreadyEnrolled) }
    ensures stranger { terms_at service.old to ≡ None → terms_at service.old from ≡ None → result ≡ Err (LeadFault.Refused Refusal.NotEnrolled) }
    ensures fault { terms_at service.old to ≡ None → IsSome (terms_at service.old from) → IfErr result (λ fault. fault ≡ LeadFault.NoMemory) }
{
    if terms_at(service, to).is_some() {
        return Err(LeadFault::Refused(Refusal::AlreadyEnrolled));
    }
    let Some(terms) = terms_at(service, from) else {
        return Err(LeadFault::Refused(Refusal::NotEnrolled));
    };
    let mut commands = Vec::new(alloc);
    carry_out(service, &mut commands, Command::Revoke { address: from })?;
    give(service, &mut commands, to, &terms)?;
    Ok(commands)
}

/// Few commands that make the customers of a service out of none. First each of these addresses is enrolled with a spare key, and
/// revoked.
pub fn fold(
    alloc: Global,
    service: &Service,
    revoked: &[Address],
    spare: Key,
) -> Result<Vec<Command>, LeadFault>
    ensures { IfOk result (λ commands. Makes commands.items revoked.now service.now) }
{
    let customers = customers_of(alloc, service)?;
    let mut made = Service::new(alloc);
    let mut commands = Vec::new(alloc);
    for address in revoked {
        revoke(&mut made, &mut commands, *address, spare)?;
    }
    let more = commands_to(alloc, &mut made, &customers)?;
    commands.extend_from_slice(&more)?;
    Ok(commands)
}

// Makes an address a revoked one, where nobody is enrolled, and so nobody holds number 1.
fn revoke(
    service: &mut Service,
    commands: &mut Vec<Command>,
    address: Address,
    spare: Key,
) -> Result<(), AllocError>
    requires { (other : Address) → terms_at service.old other ≡ None }
    ensures { OnOk result (Revokes service.old address commands.old.items commands.new.items service.new) }
{
    let enrol = Command::Enrol {
        address,
        number: NonZero::<u16>::MIN,
        key: spare,
        // `labntpctl check` warns of 1.
        budget: NonZero::<u16>::new(10).unwrap(),
    };
    carry_out(service, commands, enrol)?;
    carry_out(service, commands, Command::Revoke { address })?;
    Ok(())
}

// What is wanted of each address, where no address and no number is wanted twice.
fn judged(alloc: Global, wanted: &[Wanted]) -> Result<ByAddress<Terms>, LeadFault>
    ensures terms { IfOk result (λ terms. (address : Address)
        → option_map enrolment_with (get address_eq terms address) ≡ enrolment_among wanted.now address) }
    ensures apart { OnOk result (AreApart wanted.now) }
    ensures fault { AreApart wanted.now → IfErr result (λ fault. fault ≡ LeadFault.NoMemory) }
{
    let mut terms = IndexMap::new(alloc);
    let mut numbers = IndexSet::new(alloc);
    for customer in wanted {
        note(&mut terms, &mut numbers, customer)?;
    }
    Ok(terms)
}

// Notes what is wanted of an address, and its numbers, where none of them was noted.
fn note(
    terms: &mut ByAddress<Terms>,
    numbers: &mut Numbers,
    customer: &Wanted,
) -> Result<(), LeadFault>
    ensures notes { OnOk result (Notes customer.now.address customer.now.terms
        (λ q. get address_eq terms.old q) (λ q. get address_eq terms.new q)
        (λ n. contains nat_eq numbers.old n) (λ n. contains nat_eq numbers.new n)) }
    ensures fault { get address_eq terms.old customer.now.address ≡ None → AreTwo customer.now.terms
        → ((n : ℕ) → HasNumber customer.now.terms n → contains nat_eq numbers.old n ≡ false)
        → IfErr result (λ fault. fault ≡ LeadFault.NoMemory) }
{
    let address = customer.address;
    match terms.insert(address, customer.terms) {
        Ok(None) => {}
        Ok(Some(_)) => return Err(LeadFault::SameAddress(address)),
        Err(_) => return Err(LeadFault::NoMemory),
    }
    note_number(numbers, &customer.terms.older)?;
    if let Some(newer) = &customer.terms.newer {
        note_number(numbers, newer)?;
    }
    Ok(())
}

// Notes the number of a key, where it was not noted.
fn note_number(numbers: &mut Numbers, key: &GivenKey) -> Result<(), LeadFault>
    ensures notes { OnOk result (NotesOne (key_given key.now).number
        (λ n. contains nat_eq numbers.old n) (λ n. contains nat_eq numbers.new n)) }
    ensures fault { contains nat_eq numbers.old (key_given key.now).number ≡ false
        → IfErr result (λ fault. fault ≡ LeadFault.NoMemory) }
{
    let number = key.number.get();
    match numbers.insert(number) {
        Ok(true) => Ok(()),
        Ok(false) => Err(LeadFault::SameNumber(number)),
        Err(_) => Err(LeadFault::NoMemory),
    }
}

// Takes from an address what is not wanted of it.
fn free(
    service: &mut Service,
    commands: &mut Vec<Command>,
    address: Address,
    wanted: &Option<Terms>,
) -> Result<(), AllocError>
    ensures moves { OnOk result
        (Moves service.old address (option_map enrolment_with wanted.now) commands.old.items commands.new.items service.new) }
    ensures only { OnOk result (OnlyWanted (terms_at service.new address) (option_map enrolment_with wanted.now)) }
{
    let held = terms_at(service, address);
    let step = freeing(address, &held, wanted);
    order(service, commands, address, [step, None, None, None])?;
    Ok(())
}

// Gives an address what is wanted of it, where it has nothing else, and no other address has a number of it.
fn give(
    service: &mut Service,
    commands: &mut Vec<Command>,
    address: Address,
    wanted: &Terms,
) -> Result<(), AllocError>
    requires only { OnlyWanted (terms_at service.old address) (Some (enrolment_with wanted.now)) }
    requires two { AreTwo wanted.now }
    requires free { (other : Address) (number : ℕ) → other ≢ address → HasNumber wanted.now number
        → Holds (terms_at service.old other) number → ⊥ }
    ensures moves { OnOk result
        (Moves service.old address (Some (enrolment_with wanted.now)) commands.old.items commands.new.items service.new) }
    ensures has { OnOk result (terms_at service.new address ≡ Some (enrolment_with wanted.now)) }
{
    let held = terms_at(service, address);
    let steps = giving(address, &held, wanted);
    order(service, commands, address, steps)?;
    Ok(())
}

// Gives a service the commands of steps for an address, and notes them.
fn order(
    service: &mut Service,
    commands: &mut Vec<Command>,
    address: Address,
    steps: [Option<Command>; 4],
) -> Result<(), AllocError>
    requires { CanDoAll service.old address (done_in steps) }
    ensures noted { OnOk result (commands.new.items ≡ commands.old.items ++ done_in steps) }
    ensures done { OnOk result (AreDone service.old address (done_in steps) service.new) }
{
    for step in steps {
        if let Some(command) = step {
            carry_out(service, commands, command)?;
        }
    }
    Ok(())
}

// Gives a service a command, which nothing but want of memory refuses, and notes it.
fn carry_out(
    service: &mut Service,
    commands: &mut Vec<Command>,
    command: Command,
) -> Result<(), AllocError>
    requires { CanDo service.old command }
    ensures noted { OnOk result (commands.new.items ≡ commands.old.items ++ command ∷ []) }
    ensures done { OnOk result (AreDone service.old (address_named command) (command ∷ []) service.new) }
    ensures after { OnOk result (service.new ≡ after_command service.old command) }
    ensures agrees { OnOk result (Agrees service.new) }
{
    if let Err(refusal) = service.command(&command) {
        prove!(matches!(refusal, Refusal::NoMemory));
        return Err(AllocError);
    }
    commands.push(command)?;
    Ok(())
}

// What takes from an address what is not wanted of it.
fn freeing(address: Address, held: &Option<Terms>, wanted: &Option<Terms>) -> Option<Command>
    requires { IfSome held.now AreTwo }
    ensures { Frees address (option_map enrolment_with held.now) (option_map enrolment_with wanted.now) (done_in (result ∷ [])) }
{
    match (held, wanted) {
        (None, _) => None,
        (Some(_), None) => Some(Command::Revoke { address }),
        (Some(held), Some(wanted)) => freeing_keys(address, held, wanted),
    }
}

// What takes from terms the keys that are not wanted: at most one command, since a customer has two at most.
fn freeing_keys(address: Address, held: &Terms, wanted: &Terms) -> Option<Command>
    requires { AreTwo held.now }
    ensures { Frees address (Some (enrolment_with held.now)) (Some (enrolment_with wanted.now)) (done_in (result ∷ [])) }
{
    let has_older = has_key(wanted, &held.older);
    let Some(newer) = held.newer else {
        return match has_older {
            true => None,
            false => Some(Command::Revoke { address }),
        };
    };
    match (has_older, has_key(wanted, &newer)) {
        (true, true) => None,
        (true, false) => Some(retirement(address, &newer)),
        (false, true) => Some(retirement(address, &held.older)),
        (false, false) => Some(Command::Revoke { address }),
    }
}

// What gives an address what is wanted of it, where it has nothing else.
fn giving(address: Address, held: &Option<Terms>, wanted: &Terms) -> [Option<Command>; 4]
    requires only { OnlyWanted (option_map enrolment_with held.now) (Some (enrolment_with wanted.now)) }
    requires two { IfSome held.now AreTwo × AreTwo wanted.now }
    ensures needed { All (IsNeededAt address (option_map enrolment_with held.now) (Some (enrolment_with wanted.now))) (done_in result) }
    ensures goes { Goes (option_map enrolment_with held.now) (done_in result) (Some (enrolment_with wanted.now)) }
{
    match held {
        Some(held) => arranging(address, held, wanted),
        None => enrolling(address, wanted),
    }
}

// What enrols an address with these terms.
fn enrolling(address: Address, terms: &Terms) -> [Option<Command>; 4]
    requires { AreTwo terms.now }
    ensures named { All (λ c. address_named c ≡ address) (done_in result) }
    ensures goes { Goes None (done_in result) (Some (enrolment_with terms.now)) }
{
    let enrol = Command::Enrol {
        address,
        number: terms.older.number,
        key: terms.older.key,
        budget: terms.budget,
    };
    let newer = rollover_if_any(address, &terms.newer);
    [Some(enrol), newer, None, None]
}

// What makes the wanted terms of others that have no other keys: the older key is taken once the newer is given.
fn arranging(address: Address, held: &Terms, wanted: &Terms) -> [Option<Command>; 4]
    requires only { OnlyWanted (Some (enrolment_with held.now)) (Some (enrolment_with wanted.now)) }
    requires two { AreTwo held.now × AreTwo wanted.now }
    ensures named { All (λ c. (address_named c ≡ address) × (ends c ≡ false)) (done_in result) }
    ensures goes { Goes (Some (enrolment_with held.now)) (done_in result) (Some (enrolment_with wanted.now)) }
    ensures none { enrolment_with held.now ≡ enrolment_with wanted.now → done_in result ≡ [] }
{
    let is_first = are_same_key(&held.older, &wanted.older);
    let has_two = held.newer.is_some();
    let first = rollover(address, &wanted.older);
    let retire = retirement(address, &held.older);
    let newer = rollover_if_any(address, &wanted.newer);
    [
        (!is_first & !has_two).then_some(first),
        (!is_first).then_some(retire),
        (!is_first | !has_two).then_some(newer).flatten(),
        rebudgeting(address, held, wanted),
    ]
}

// What gives an address the wanted budget, where it has another.
fn rebudgeting(address: Address, held: &Terms, wanted: &Terms) -> Option<Command>
    ensures { result ≡ rebudgeting address held.now wanted.now }
{
    let budget = wanted.budget;
    (held.budget.get() != budget.get()).then_some(Command::Budget { address, budget })
}

// The rollover to a newer key, if there is one.
fn rollover_if_any(address: Address, newer: &Option<GivenKey>) -> Option<Command>
    ensures { result ≡ option_map (λ key. command.Rollover address key.number key.key) newer.now }
{
    newer.map(|newer| rollover(address, &newer))
}

// The command that retires a key.
fn retirement(address: Address, key: &GivenKey) -> Command
    ensures { result ≡ command.Retire address key.now.number }
{
    Command::Retire {
        address,
        number: key.number,
    }
}

/// The rollover to a key.
pub fn rollover(address: Address, key: &GivenKey) -> Command
    ensures { result ≡ command.Rollover address key.now.number key.now.key }
{
    Command::Rollover {
        address,
        number: key.number,
        key: key.key,
    }
}

// Whether terms have a key.
fn has_key(terms: &Terms, key: &GivenKey) -> bool
    ensures { IsTrue result ↔ Contains (enrolment_with terms.now).keys (key_given key.now) }
{
    are_same_key(&terms.older, key)
        || matches!(&terms.newer, Some(newer) if are_same_key(newer, key))
}
