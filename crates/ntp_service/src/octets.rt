//! The octets of a datagram that is kept.
ghost use Rattle.std.specs.Prelude.{◌≡◌};

use std::alloc::{Allocator, Global};
use std::marker::Model;

/// Octets in memory. Contracts see them as a list.
#[derive(Debug, Drop)]
pub struct Octets<A: Allocator = Global> {
    octets: Vec<u8, A>,
}

impl<A: Allocator> Model for Octets<A> {
    ghost use Rattle.std.specs.Prelude.{ℕ, List};

    ghost Value = { List ℕ };

    ghost view = { λ o. o.octets.items };
}

impl<A: Allocator> Octets<A> {
    /// The octets of a vector, which is not copied.
    pub fn new(octets: Vec<u8, A>) -> Octets<A>
        ensures { result ≡ octets.items }
    {
        Octets { octets }
    }

    /// The octets.
    pub fn as_slice(&self) -> &[u8]
        ensures { result.now ≡ self.now }
    {
        self.octets.as_slice()
    }
}
