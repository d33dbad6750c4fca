//! A worked example: the lines of a script, and the answer lines.

use ntp_admin::{Event, Outcome, is_passed_over, parse_event, print_answer};
use ntp_service::Service;
use std::alloc::{Allocator, Global};
use std::rt::Files;
use std::{fs, io};

/// A script, and its answers.
#[derive(Drop)]
pub(crate) struct Example {
    script: String,
    answers: String,
}

impl Example {
    /// The example with a name, of the folder that the program runs in.
    pub(crate) fn read<R: Files + AllocGlobal>(rt: &R, name: &str) -> io::Result<Example> {
        Ok(Example {
            script: fs::read_to_string(rt, format!(in rt.alloc(); "{name}.script")?)?,
            answers: fs::read_to_string(rt, format!(in rt.alloc(); "{name}.answers")?)?,
        })
    }

    /// The events of the script, or none where a line spells none.
    pub(crate) fn events<A: Allocator + Copy>(&self, alloc: A) -> Option<Vec<Event<A>, A>> {
        let mut events = Vec::new(alloc);
        for line in self.script.as_str().lines() {
            if !is_passed_over(line.as_bytes()) {
                events.push(parse_event(alloc, line).ok()?).ok()?;
            }
        }
        Some(events)
    }

    /// Whether the lines that are printed for outcomes are the answers.
    pub(crate) fn is_told(&self, alloc: Global, outcomes: &[Outcome]) -> Option<bool> {
        let mut answers = self.answers.as_str().lines();
        for outcome in outcomes {
            let line = print_answer(alloc, outcome).ok()?;
            if line.as_str().strip_suffix('\n') != answers.next() {
                return Some(false);
            }
        }
        Some(answers.next().is_none())
    }

    /// Whether a run of the events is told as it is worked.
    pub(crate) fn is_run(&self, alloc: Global) -> Option<bool> {
        let outcomes = Service::new(alloc).run(&self.events(alloc)?).ok()?;
        self.is_told(alloc, &outcomes)
    }
}
