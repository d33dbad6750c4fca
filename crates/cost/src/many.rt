//! Many customers, and the look-up among them.

use crate::words::{Query, Who};
use crate::work::{enrolled, fill, moment, reference, sign};
use ntp_admin::Command;
use ntp_mac::{Algorithm, Key};
use ntp_reply::{Answer, Reason, Reference};
use ntp_service::{Address, Service};
use std::alloc::Global;

/// The first stamp; the queries come a second apart, so that each stamp is new.
const FIRST: u64 = 0xec00_0000_0000_0000;

/// The octets of a query with an MD5 MAC.
const LENGTH: usize = 68;

/// The first address of the customers, of those that were revoked, and of strangers.
const CUSTOMERS: u32 = 0x0a00_0000;

const REVOKED: u32 = 0xac10_0000;

const STRANGERS: u32 = 0x6440_0000;

/// Signed queries from one address after another that were answered as they have to be: with the time, or, to strangers, with
/// silence.
pub(crate) fn asked(alloc: Global, who: Who, customers: u16, revoked: u32, count: u64) -> u64 {
    let (Ok(key), Some(reference)) = (Key::new(Algorithm::Md5, b"key"), reference()) else {
        return 0;
    };
    let mut service = Service::new(alloc);
    if customers == 0 || !fill_register(&mut service, key, customers, revoked) {
        return 0;
    }
    let mut query = [0; 72];
    fill(Query::Basic, 0, &mut query);
    sign(key, &mut query);
    let mut answered = 0u64;
    for turn in 0..count {
        // A step that is prime to their number goes through all customers.
        let place = (turn.wrapping_mul(7919) % u64::from(customers)) as u16;
        let from = match who {
            Who::Customers => address(CUSTOMERS, u32::from(place)),
            Who::Strangers => address(STRANGERS, (turn % 4_000_000) as u32),
        };
        query[50..52].copy_from_slice(&place.wrapping_add(1).to_be_bytes());
        let receipt = FIRST.wrapping_add(turn << 32);
        let answer = answer(&mut service, &reference, from, receipt, &query);
        if is_due(who, &answer) {
            answered = answered.saturating_add(1);
        }
    }
    answered
}

// The answer to a query.
fn answer(
    service: &mut Service,
    reference: &Reference,
    from: Address,
    receipt: u64,
    query: &[u8; 72],
) -> Answer {
    let transmit = moment(receipt.wrapping_add(0x100));
    service.datagram(from, moment(receipt), transmit, reference, &query[..LENGTH])
}

// Whether an answer is what is due.
fn is_due(who: Who, answer: &Answer) -> bool {
    match who {
        Who::Customers => matches!(answer, Answer::Time { .. }),
        Who::Strangers => matches!(answer, Answer::Silent(Reason::Unregistered)),
    }
}

// The address `place` places behind `first`.
fn address(first: u32, place: u32) -> Address {
    Address(first.wrapping_add(place).to_be_bytes())
}

// Enrols and revokes `revoked` addresses, then enrols `customers` customers. Gives whether all of it was done.
fn fill_register(service: &mut Service, key: Key, customers: u16, revoked: u32) -> bool {
    for place in 0..revoked {
        let address = address(REVOKED, place);
        if !enrolled(service, address, 1, key)
            || service.command(&Command::Revoke { address }).is_err()
        {
            return false;
        }
    }
    for place in 0..customers {
        let address = address(CUSTOMERS, u32::from(place));
        if !enrolled(service, address, place.wrapping_add(1), key) {
            return false;
        }
    }
    true
}
