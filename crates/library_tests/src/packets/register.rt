//! What no contract says: that commands succeed; and worked orders, each with its answer.

use ntp_mac::{Algorithm, Key, KeyFault};
use ntp_service::{Address, Command, Customer, NumberedKey, Refusal, Register, Service};
use std::num::NonZero;
use std::process::Abort;
use std::test::Fail;

const A: Address = Address([192, 0, 2, 10]);

const B: Address = Address([192, 0, 2, 20]);

// What is ordered of a service.
#[derive(Clone, Copy)]
enum Order {
    Enrol,
    Rollover,
    Retire,
    Revoke,
}

// The command of an order of an address with a number, which is not 0. A budget is 10.
fn command(order: Order, address: Address, number: u16, key: Key) -> Option<Command> {
    let number = NonZero::<u16>::new(number)?;
    Some(match order {
        Order::Enrol => Command::Enrol {
            address,
            number,
            key,
            budget: NonZero::<u16>::new(10)?,
        },
        Order::Rollover => Command::Rollover {
            address,
            number,
            key,
        },
        Order::Retire => Command::Retire { address, number },
        Order::Revoke => Command::Revoke { address },
    })
}

// The number, the key and the budget of a customer, where it is enrolled, and whether it has room for a further key.
fn terms(customer: Option<&Customer>) -> Option<(u16, Key, u16, bool)> {
    let customer = customer?;
    if customer.is_enrolled() {
        let key = *customer.key();
        Some((
            customer.number(),
            key,
            customer.budget(),
            customer.has_room(),
        ))
    } else {
        None
    }
}

// Its key under a number.
fn key_for(customer: Option<&Customer>, number: u16) -> Option<Key> {
    let customer = customer?;
    if customer.is_enrolled() {
        customer.key_for(number).copied()
    } else {
        None
    }
}

// What it holds under a number of a MAC.
fn held(customer: Option<&Customer>, number: u32) -> Option<NumberedKey> {
    let customer = customer?;
    if customer.is_enrolled() {
        customer.held(number).copied()
    } else {
        None
    }
}

fn key() -> Result<Key, KeyFault> {
    Key::new(Algorithm::Md5, b"key")
}

// Each order with its address and number, its answer, and who then holds the number.
type Row = (Order, Address, u16, Result<(), Refusal>, Option<Address>);

// An order with a key is answered so.
fn is_answered(rt: &impl Abort, service: &mut Service, key: Key, row: Row) {
    let (order, address, number, expected, holder) = row;
    let answered = command(order, address, number, key).map(|command| service.command(&command));
    assert_eq!(rt;
        (answered, service.holder(number)),
        (Some(expected), holder)
    );
}

// Enrolments and revocations, one behind another.
const ENROLMENTS: [Row; 9] = [
    (Order::Enrol, A, 7, Ok(()), Some(A)),
    (Order::Enrol, A, 7, Err(Refusal::AlreadyEnrolled), Some(A)),
    (Order::Enrol, B, 7, Err(Refusal::KeyTaken), Some(A)),
    (Order::Revoke, A, 7, Ok(()), None),
    (Order::Revoke, A, 7, Err(Refusal::NotEnrolled), None),
    (Order::Revoke, B, 7, Err(Refusal::NotEnrolled), None),
    (Order::Enrol, B, 7, Ok(()), Some(B)),
    (Order::Enrol, A, 7, Err(Refusal::KeyTaken), Some(B)),
    (Order::Enrol, A, 8, Ok(()), Some(A)),
];

#[test]
fn refusals_come_in_their_order(rt: HostRuntime) -> Result<(), Fail> {
    let key = key()?;
    let mut service = Service::new(rt.alloc());
    for row in ENROLMENTS {
        is_answered(&rt, &mut service, key, row);
    }
    Ok(())
}

// Changes of keys, one behind another.
const CHANGES: [Row; 15] = [
    (Order::Rollover, A, 7, Err(Refusal::NotEnrolled), None),
    (Order::Retire, A, 7, Err(Refusal::NotEnrolled), None),
    (Order::Enrol, A, 7, Ok(()), Some(A)),
    (Order::Enrol, B, 8, Ok(()), Some(B)),
    (Order::Rollover, A, 7, Err(Refusal::SameNumber), Some(A)),
    (Order::Rollover, A, 8, Err(Refusal::KeyTaken), Some(B)),
    (Order::Retire, A, 8, Err(Refusal::NotHeld), Some(B)),
    (Order::Retire, A, 7, Err(Refusal::OnlyKey), Some(A)),
    (Order::Rollover, A, 9, Ok(()), Some(A)),
    (Order::Rollover, A, 9, Err(Refusal::SameNumber), Some(A)),
    (Order::Rollover, A, 8, Err(Refusal::RoomFull), Some(B)),
    (Order::Retire, A, 8, Err(Refusal::NotHeld), Some(B)),
    (Order::Revoke, A, 7, Ok(()), None),
    (Order::Rollover, A, 9, Err(Refusal::NotEnrolled), None),
    (Order::Retire, A, 9, Err(Refusal::NotEnrolled), None),
];

#[test]
fn changes_of_keys_are_refused_in_their_order(rt: HostRuntime) -> Result<(), Fail> {
    let key = key()?;
    let mut service = Service::new(rt.alloc());
    for row in CHANGES {
        is_answered(&rt, &mut service, key, row);
    }
    Ok(())
}

#[test]
fn a_customer_has_what_it_was_enrolled_with(rt: HostRuntime) -> Result<(), Fail> {
    let key = key()?;
    let mut register = Register::new(rt.alloc());
    assert!(rt; register.customer(A).is_none());
    assert!(rt; register.enrol(A, 65535, key, 1).is_ok());
    assert!(rt; terms(register.customer(A)) == Some((65535, key, 1, true)));
    assert!(rt; register.revoke(A).is_ok());
    assert!(rt; register.customer_mut(A).is_some());
    assert!(rt; terms(register.customer(A)).is_none());
    Ok(())
}

// Whether A has these terms and a budget of 10.
fn has_terms(service: &Service, number: u16, key: Key, has_room: bool) -> bool {
    terms(service.customer(A)) == Some((number, key, 10, has_room))
}

// The key of A under a number.
fn key_of_a(service: &Service, number: u16) -> Option<Key> {
    key_for(service.customer(A), number)
}

// What A holds under a number of a MAC.
fn held_by_a(service: &Service, number: u32) -> Option<NumberedKey> {
    held(service.customer(A), number)
}

// Two keys of A. The newer one stays.
fn roll_over(rt: &impl Abort, it: &mut Service, key: Key, newer: Key) {
    is_answered(rt, it, key, (Order::Enrol, A, 7, Ok(()), Some(A)));
    is_answered(rt, it, newer, (Order::Rollover, A, 9, Ok(()), Some(A)));
    assert!(rt; it.holder(7) == Some(A));
    assert!(rt; has_terms(it, 7, key, false));
    assert!(rt; key_of_a(it, 9) == Some(newer));
    assert!(rt; held_by_a(it, 7) == Some(NumberedKey { number: 7, key }));
    assert!(rt; held_by_a(it, 65536 + 7).is_none());
    is_answered(rt, it, key, (Order::Retire, A, 7, Ok(()), None));
    assert!(rt; has_terms(it, 9, newer, true));
    assert!(rt; key_of_a(it, 7).is_none());
    is_answered(rt, it, key, (Order::Enrol, B, 7, Ok(()), Some(B)));
}

#[test]
fn a_key_comes_and_the_older_one_goes(rt: HostRuntime) -> Result<(), Fail> {
    let newer = Key::new(Algorithm::Sha1, b"newer")?;
    let mut it = Service::new(rt.alloc());
    roll_over(&rt, &mut it, key()?, newer);
    Ok(())
}
