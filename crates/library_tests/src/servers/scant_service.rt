//! A service whose memory can be refused, and what is told of the lines of its commands file.

use ntp_admin::{Command, commands_step};
use ntp_mac::{Algorithm, Key};
use ntp_service::{Address, Refusal, Service};
use std::alloc::{Allocator, Global};
use std::num::NonZero;
use std::process::Abort;
use std::test::Fail;
use test_support::{Refusing, ordered};

/// A service that knows nobody at first, and what is told of the lines of its commands file.
#[derive(Drop)]
pub(crate) struct ScantService<'a> {
    pub(crate) service: Service<&'a Refusing<Global>>,
    told: Vec<u8>,
}

impl<'a> ScantService<'a> {
    /// One that takes its own memory from `memory`.
    pub(crate) fn new(memory: &'a Refusing<Global>, alloc: Global) -> ScantService<'a> {
        ScantService {
            service: Service::new(memory),
            told: Vec::new(alloc),
        }
    }

    /// Applies a commands file of `lines` lines, twice, the first time while the nth allocation is refused. No line is tried again.
    pub(crate) fn apply_twice(&mut self, rt: &impl Abort, octets: &[u8], lines: u64, n: u64) {
        let memory = self.service.allocator();
        memory.refuse_nth(n);
        let applied = step(&mut self.service, octets, 0, &mut self.told);
        memory.refuse_none();
        assert!(rt; applied == lines);
        assert!(rt; step(&mut self.service, octets, lines, &mut self.told) == lines);
    }

    /// Whether just this is told.
    pub(crate) fn is_told(&self, faults: &str) -> bool {
        self.told.as_slice() == faults.as_bytes()
    }

    /// Whether it was refused memory.
    pub(crate) fn is_refused(&self) -> bool {
        self.service.allocator().refused() > 0
    }
}

// What a commands file leaves of a service: how many of its lines are applied. What is wrong with them is told.
fn step<A: Allocator + Copy>(
    service: &mut Service<A>,
    octets: &[u8],
    applied: u64,
    told: &mut Vec<u8>,
) -> u64 {
    commands_step(service, octets, applied, told)
}

// The enrolment of an address with a number, the MD5 key `key` and a budget of 10.
fn enrolment(address: Address, number: u16) -> Result<Command, Fail> {
    let number = NonZero::<u16>::new(number).ok_or("no number")?;
    let key = Key::new(Algorithm::Md5, b"key")?;
    let budget = NonZero::<u16>::new(10).ok_or("no budget")?;
    Ok(Command::Enrol {
        address,
        number,
        key,
        budget,
    })
}

/// What an enrolment is answered.
pub(crate) fn enrol_answer<A: Allocator + Copy>(
    service: &mut Service<A>,
    address: Address,
    number: u16,
) -> Result<Result<(), Refusal>, Fail> {
    Ok(ordered(service, &enrolment(address, number)?))
}

/// Enrols an address that is to be enrolled.
pub(crate) fn enrol<A: Allocator + Copy>(
    service: &mut Service<A>,
    address: Address,
    number: u16,
) -> Result<(), Fail> {
    Ok(enrol_answer(service, address, number)??)
}
