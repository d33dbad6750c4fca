//! The stamps that are saved, as lists.
ghost use Rattle.std.specs.Prelude.{◌≡◌, ◌+◌, ◌≤◌, ◌++◌, length};
ghost use Rattle.arrayvec.specs.ArrayVec.{array_vec_len};
ghost use Rattle.ntp_customer.specs.Exchanges.{receives, transmits, all_stamps};

use crate::{Slot, Slots};
use arrayvec::ArrayVec;
use ntp_packet::Stamp;
use std::alloc::Allocator;

/// How many stamps such a list has room for: both of each exchange that is saved, and one more.
const MOST_STAMPS: usize = 17;

impl<A: Allocator> Slots<A> {
    /// The receive stamps of the exchanges that are saved, oldest first. It takes no memory.
    pub fn receive_stamps(&self) -> ArrayVec<Stamp, 17>
        ensures { result.items ≡ receives self.now }
    {
        let (older, newer) = self.saved();
        let mut stamps = ArrayVec::new();
        add_receives(&mut stamps, older);
        add_receives(&mut stamps, newer);
        stamps
    }

    /// All stamps of the exchanges that are saved: the receive stamps, oldest first, and then the transmit stamps. It takes
    /// no memory.
    pub fn all_stamps(&self) -> ArrayVec<Stamp, 17>
        ensures { result.items ≡ all_stamps self.now }
    {
        let (older, newer) = self.saved();
        let mut stamps = self.receive_stamps();
        add_transmits(&mut stamps, older);
        add_transmits(&mut stamps, newer);
        stamps
    }
}

// Puts the receive stamps of exchanges behind others.
#[tactic(auto, using(crate::proofs::Listed::listed))]
fn add_receives(stamps: &mut ArrayVec<Stamp, MOST_STAMPS>, slots: &[Slot])
    requires { length stamps.old.items + length slots.now ≤ 17 }
    ensures { stamps.new.items ≡ stamps.old.items ++ receives slots.now }
{
    for slot in slots {
        stamps.push(slot.receive);
    }
}

// Puts the transmit stamps of exchanges behind others.
#[tactic(auto, using(crate::proofs::Listed::listed))]
fn add_transmits(stamps: &mut ArrayVec<Stamp, MOST_STAMPS>, slots: &[Slot])
    requires { length stamps.old.items + length slots.now ≤ 17 }
    ensures { stamps.new.items ≡ stamps.old.items ++ transmits slots.now }
{
    for slot in slots {
        stamps.push(slot.transmit);
    }
}
