//! The parts of a server in memory.
ghost use Rattle.std.specs.Prelude.{◌≡◌, ◌≤◌, ◌<◌, ◌++◌, Some, None, false, [], ◌∷◌, map, option_map, vec_len, vec_capacity, IfOk, if◌then◌else◌};
ghost use Rattle.ntp_service.specs.declared.observation.Observation.{Observation};

use ntp_packet::Moment;
use ntp_port::{CommandsSource, ReferenceSource};
use ntp_reply::Reference;
use ntp_service::{Command, LineOutcome, NoMemory, Observation, Observer, TurnOutcome};
use std::alloc::{Allocator, Global};

/// Commands in memory: each look gives the next of a list of pieces, and nothing once the list has run out.
#[derive(Debug, Drop)]
pub struct MemoryCommands<A: Allocator = Global> {
    looks: Vec<Option<Vec<u8, A>>, A>,
    // How many looks were made.
    made: usize,
    ghost within: { made ≤ vec_len looks },
}

impl<A: Allocator> MemoryCommands<A> {
    ghost use Rattle.test_support.specs.Memory.{pieces_left};

    /// Commands whose looks will give these pieces.
    pub fn new(looks: Vec<Option<Vec<u8, A>>, A>) -> MemoryCommands<A>
        ensures { pieces_left result ≡ map (λ look. option_map (λ octets. octets.items) look) looks.items }
    {
        MemoryCommands { looks, made: 0 }
    }
}

impl<A: Allocator + Copy> CommandsSource<A> for MemoryCommands<A> {
    ghost use Rattle.test_support.specs.Memory.{pieces_left, Takes};

    ghost looked = { λ before after asked given. Takes None (pieces_left before) (pieces_left after) given };

    // The octets are handed out, and not copied.
    fn look(&mut self, _alloc: A, _receipt: Option<Moment>) -> Option<Vec<u8, A>> {
        let at = self.made;
        if at == self.looks.len() {
            return None;
        }
        let octets = self.looks[at].take();
        self.made = at + 1;
        octets
    }
}

/// States of a clock in memory: those of a list, one after another, and behind them one for ever.
#[derive(Debug, Drop)]
pub struct MemoryStates<A: Allocator = Global> {
    states: Vec<Reference, A>,
    // How many of them were given.
    given: usize,
    behind: Reference,
}

impl<A: Allocator> MemoryStates<A> {
    ghost use Rattle.test_support.specs.Memory.{states_left};

    /// These states, and then another one for ever.
    pub fn new(states: Vec<Reference, A>, behind: Reference) -> MemoryStates<A>
        ensures left { states_left result ≡ states.items }
        ensures behind { result.behind ≡ behind }
    {
        MemoryStates {
            states,
            given: 0,
            behind,
        }
    }
}

impl<A: Allocator> ReferenceSource for MemoryStates<A> {
    ghost use Rattle.test_support.specs.Memory.{states_left, Takes};

    ghost asked = { λ before after receipt given. Takes before.behind (states_left before) (states_left after) given × (after.behind ≡ before.behind) };

    ghost tended = { λ before after. after ≡ before };

    fn in_force(&mut self, _receipt: Option<Moment>) -> Reference {
        let at = self.given;
        if at >= self.states.len() {
            return self.behind;
        }
        self.given = at + 1;
        self.states[at]
    }

    fn tend(&mut self) {}
}

/// An observer in memory, with limited room for observations. It keeps each as long as it had room for all.
#[derive(Debug, Drop)]
pub struct MemoryObserver<A: Allocator = Global> {
    seen: Vec<Observation, A>,
    // Whether there was no room for one.
    has_missed: bool,
}

impl<A: Allocator> MemoryObserver<A> {
    ghost use Rattle.test_support.specs.Memory.{HasRoom, KeepsOne};

    /// One that has seen nothing. The room is taken from `alloc` here, so that no call of it takes memory: `NoMemory` only where
    /// it was refused.
    pub fn new(alloc: A, room: usize) -> Result<MemoryObserver<A>, NoMemory>
        ensures seen { IfOk result (λ m. m.seen.items ≡ []) }
        ensures missed { IfOk result (λ m. m.has_missed ≡ false) }
        ensures room { IfOk result (λ m. room ≤ vec_capacity m.seen) }
    {
        let seen = Vec::with_capacity(alloc, room)?;
        Ok(MemoryObserver {
            seen,
            has_missed: false,
        })
    }

    /// What it has seen, up to the first observation for which it had no room.
    pub fn seen(&self) -> &[Observation]
        ensures { result.now ≡ self.now.seen.items }
    {
        &self.seen
    }

    /// Whether it had no room for an observation.
    pub fn has_missed(&self) -> bool
        ensures { result ≡ self.now.has_missed }
    {
        self.has_missed
    }

    // Keeps an observation, where there is room.
    fn see(&mut self, observation: Observation)
        ensures keeps { KeepsOne self.old self.new observation }
        ensures room { HasRoom self.old → self.new.has_missed ≡ self.old.has_missed }
    {
        if self.has_missed || self.seen.len() == self.seen.capacity() {
            self.has_missed = true;
            return;
        }
        self.seen.push_reserved(observation);
    }
}

impl<A: Allocator> Observer for MemoryObserver<A> {
    ghost use Rattle.test_support.specs.Memory.{KeepsOne};

    ghost heard = { KeepsOne };

    fn line(&mut self, number: u64, command: Option<&Command>, outcome: LineOutcome) {
        self.see(Observation::Line {
            number,
            command: command.copied(),
            outcome,
        });
    }

    fn turn(&mut self, outcome: &TurnOutcome) {
        let Ok(outcome) = outcome.clone() else {
            self.has_missed = true;
            return;
        };
        self.see(Observation::Turn(outcome));
    }
}
