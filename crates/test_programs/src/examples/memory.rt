//! A worked example where memory is refused.

use crate::examples::example::Example;
use ntp_admin::{Command, Event, Outcome};
use ntp_service::Service;
use std::alloc::{Allocator, Global};
use test_support::Refusing;

/// Whether the events are told as they are worked, where those alone have memory that may ask for it.
pub(crate) fn is_told_without(alloc: Global, example: &Example) -> Option<bool> {
    let memory = Refusing::new(alloc);
    let events = example.events(&memory)?;
    let mut service = Service::new(&memory);
    let mut outcomes = Vec::new(alloc);
    for event in &events {
        outcomes
            .push(outcome_without(&memory, &mut service, event)?)
            .ok()?;
    }
    example.is_told(alloc, &outcomes)
}

// The outcome of an event that has memory only if it may ask for it. None where any other asked.
fn outcome_without<'a>(
    memory: &'a Refusing<Global>,
    service: &mut Service<&'a Refusing<Global>>,
    event: &Event<&'a Refusing<Global>>,
) -> Option<Outcome> {
    if may_ask(event) {
        return Some(service.apply(event));
    }
    let before = memory.calls();
    memory.refuse_all();
    let outcome = service.apply(event);
    memory.refuse_none();
    if memory.calls() == before {
        Some(outcome)
    } else {
        None
    }
}

// Whether an event may ask for memory.
fn may_ask<A: Allocator>(event: &Event<A>) -> bool {
    match event {
        Event::Command(command) => adds(command),
        _ => false,
    }
}

// Whether a command brings a customer or a number to the register.
fn adds(command: &Command) -> bool {
    matches!(command, Command::Enrol { .. } | Command::Rollover { .. })
}
