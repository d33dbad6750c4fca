//! A service over a list of events, and what no neighbour can change.
ghost use Rattle.std.specs.Prelude.{◌≡◌, List, zip, length, IfOk, OnErr};
ghost use Rattle.ntp_service.specs.{declared.event.Event.Event, Headline.StandsFor, Headline.Tells};
ghost use Rattle.ntp_service.specs.{Forgery.TellsWithoutForgeries, Bound.TellsFew};

use crate::{Event, NoMemory, Outcome, Service};
use std::alloc::Allocator;

impl<A: Allocator + Copy> Service<A> {
    /// The outcomes of events, one after another. Room for all of them is taken first; where it is
    /// refused, no event was applied.
    ///
    /// To each address the outcomes are those that the model of one customer gives to that address's own
    /// events alone, once the commands that were refused for want of memory, or for a key number that
    /// another address holds, are left out of the list.
    ///
    /// Whatever others send in an address's name, the outcomes at its signed queries, its departures and its
    /// commands are those that the model gives to these alone, without any other datagram. Of the other datagrams
    /// this says nothing. A replay of a signed datagram is not told from the first: it counts as signed, and
    /// spends the budget.
    ///
    /// Replies are few. Take a stretch of an address's own events, of those that are left in the list, in which no command
    /// is done and the windows of the receipts never fall. Of its datagrams with their receipt in one window, at most one
    /// more than the budget are answered with the time or `RATE`, none where the address is not enrolled, and at most four
    /// with `DENY` or a crypto-NAK. A receipt that falls back into an earlier window, or a command that is done, may begin a
    /// new count. The receipts are the moments that were handed in, and of all addresses together this says nothing.
    pub fn run(&mut self, events: &[Event<A>]) -> Result<Vec<Outcome, A>, NoMemory>
        ensures each { IfOk result (λ outcomes. length outcomes.items ≡ length events.now) }
        ensures tells { IfOk result (λ outcomes. (history : List (Event A)) → StandsFor self.old history
            → Tells history (zip events.now outcomes.items) self.new) }
        ensures forgeries { IfOk result (λ outcomes. (history : List (Event A)) → StandsFor self.old history
            → TellsWithoutForgeries history (zip events.now outcomes.items)) }
        ensures bound { IfOk result (λ outcomes. (history : List (Event A)) → StandsFor self.old history
            → TellsFew history (zip events.now outcomes.items)) }
        ensures refused { OnErr result (self.new ≡ self.old) }
    {
        let Ok(mut outcomes) = Vec::with_capacity(self.allocator(), events.len()) else {
            return Err(NoMemory);
        };
        for event in events {
            outcomes.push_reserved(self.apply(event));
        }
        Ok(outcomes)
    }
}
