//! What is no fault, but hardly meant.
ghost use Rattle.std.specs.Prelude.{◌≡◌};
ghost use Rattle.labntpd_files.specs.HardlyMeant.{address_warning, key_warning, budget_warning};

use HardlyMeant::*;
use ntp_mac::{Algorithm, Key};
use ntp_service::Address;
use thiserror::Error;

/// The greatest budget that the rules of `labntpctl door` let pass: 200 datagrams a second for 64 seconds.
const DOOR_BUDGET: u16 = 12_800;

/// What is hardly meant at a customer, in words.
#[derive(Clone, Copy, Debug, PartialEq, Eq, Drop, Error)]
pub enum HardlyMeant {
    #[error("no host sends from network 0")]
    ThisNetwork,
    #[error("no host sends from a multicast address")]
    Multicast,
    #[error("no host sends from network 240/4, which is reserved")]
    Reserved,
    #[error("no host sends from the broadcast address")]
    Broadcast,
    #[error("the key has fewer than 16 octets: {0}")]
    ShortKey(usize),
    #[error("the key is for MD5, the weaker algorithm")]
    Md5,
    #[error("budget 1: of a client that asks each 64 seconds two queries may fall into one window")]
    SmallBudget,
    #[error("budget {0}: the rules of `labntpctl door` let 12800 queries pass in 64 seconds")]
    LargeBudget(u16),
}

/// What is hardly meant with an address: one that no host sends from.
pub fn address_warning(address: Address) -> Option<HardlyMeant>
    ensures { result ≡ address_warning address.0 }
{
    match address.0 {
        [0, _, _, _] => Some(ThisNetwork),
        [first, _, _, _] if first < 224 => None,
        [first, _, _, _] if first < 240 => Some(Multicast),
        [255, 255, 255, 255] => Some(Broadcast),
        _ => Some(Reserved),
    }
}

/// What is hardly meant at a key: few octets, else that it is for MD5.
pub fn key_warning(key: &Key) -> Option<HardlyMeant>
    ensures { result ≡ key_warning key.now }
{
    match (key.octet_count(), key.algorithm()) {
        (count, _) if count < 16 => Some(ShortKey(count)),
        (_, Algorithm::Md5) => Some(Md5),
        (_, Algorithm::Sha1) => None,
    }
}

/// What is hardly meant with a budget: 1, and what is more than the rules of `labntpctl door` let pass.
pub fn budget_warning(budget: u16) -> Option<HardlyMeant>
    ensures { result ≡ budget_warning budget }
{
    match budget {
        0 | 1 => Some(SmallBudget),
        _ if budget > DOOR_BUDGET => Some(LargeBudget(budget)),
        _ => None,
    }
}
