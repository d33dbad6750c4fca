//! Where a server has its commands and the state of its clock from.
ghost use Rattle.std.specs.Prelude.{◌≡◌, ℕ, Option, List, option_map};
ghost use Rattle.ntp_packet.specs.declared.moment.Moment.{Moment};
ghost use Rattle.ntp_reply.specs.Reference.{ReferenceState};

use ntp_packet::Moment;
use ntp_reply::Reference;
use std::alloc::Allocator;

/// The commands of a server, which are looked at before its first turn and in each turn, before the datagram is answered.
///
/// A source may tell how a look leads from one state of it to the next, and what it gives.
pub trait CommandsSource<A: Allocator> {
    // That a look led from one state to another, was asked with this, and gave that, as far as the source tells it.
    ghost looked: { Self → Self → Option Moment → Option (List ℕ) → Type 0 } = { λ before after asked given. Unit {0} };

    /// Returns complete lines, each with its line feed, that are new since it last gave some, and nothing where there are none.
    /// At a look it takes 64 KiB of a file at most. `receipt` is when the datagram came that waits for its answer, and nothing
    /// where none waits. It may take memory from `alloc`, and gives nothing where there is none.
    fn look(&mut self, alloc: A, receipt: Option<Moment>) -> Option<Vec<u8, A>>
        ensures { looked self.old self.new receipt (option_map (λ octets. octets.items) result) };
}

/// The state of a server's clock, which is asked for in each turn.
///
/// A source may tell how each call leads from one state of it to the next, and what it gives.
pub trait ReferenceSource {
    // That an ask led from one state to another, was asked with this, and gave that, as far as the source tells it.
    ghost asked: { Self → Self → Option Moment → ReferenceState → Type 0 } = { λ before after receipt given. Unit {0} };

    // That time to look after itself led from one state to another, as far as the source tells it.
    ghost tended: { Self → Self → Type 0 } = { λ before after. Unit {0} };

    /// The state that is in force. `receipt` is when the datagram came that is to be answered with it, and nothing where none
    /// could be received.
    fn in_force(&mut self, receipt: Option<Moment>) -> Reference
        ensures { asked self.old self.new receipt result };

    /// Time for the source to look after itself, while no datagram waits for its answer. A source that has nothing to look after does
    /// nothing.
    fn tend(&mut self)
        ensures { tended self.old self.new };
}

/// A state that is in force for ever.
#[derive(Clone, Copy, Debug, PartialEq, Eq)]
pub struct FixedReference(pub Reference);

impl ReferenceSource for FixedReference {
    ghost asked = { λ before after receipt given. (given ≡ before.0) × (after ≡ before) };

    ghost tended = { λ before after. after ≡ before };

    fn in_force(&mut self, _receipt: Option<Moment>) -> Reference {
        self.0
    }

    fn tend(&mut self) {}
}
