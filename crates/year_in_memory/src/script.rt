//! What happens to a daemon, written down beside the events that its service has to see.

use crate::host::{SECOND, moment_at};
use ntp_admin::{is_passed_over, parse_command};
use ntp_mac::Reply;
use ntp_packet::{Moment, Stamp};
use ntp_port::MOST_RECEIVED_OCTETS;
use ntp_reply::{Answer, Reference};
use ntp_service::{Address, Arrival, Event, LineFault, Octets, Service};
use std::alloc::Global;
use std::test::Fail;
use test_support::{Incoming, Turn};

/// How long before a datagram a wait ends with none: a hundredth of a second, in nanoseconds.
const WAIT: u64 = 10_000_000;

/// How long after a datagram came it is received, in nanoseconds; and how long after that its reply is to depart, departs, and the clock
/// is read next.
const RECEIVED: u64 = 40_000;

const TRANSMITTED: u64 = 60_000;

const DEPARTED: u64 = 80_000;

const READ: u64 = 100_000;

/// A line that is appended to the commands file at its moment.
#[derive(Clone, Copy)]
pub struct DueLine {
    /// Its moment.
    pub at: u64,
    /// The line, without its line feed.
    pub text: &'static str,
}

/// What the daemon does, in order. Lines and datagrams have events; a time reply that is sent has one more, its departure.
#[derive(Clone, Copy)]
pub enum Happening {
    /// It takes the line of a command.
    Command { number: u64 },
    /// It takes a line that is no command.
    Faulty { number: u64, fault: LineFault },
    /// It answers a datagram, whose reply can be sent or cannot.
    Datagram { arrival: Arrival, sends: bool },
    /// It can receive nothing.
    NothingReceived,
}

/// What happens to a daemon.
#[derive(Drop)]
pub struct Script {
    /// The state of its clock.
    pub reference: Reference,
    /// What its host gives it.
    pub given: Given,
    /// What it makes of that.
    pub made: Made,
    alloc: Global,
    // The service by which queries that rest on replies are made.
    plan: Service,
}

/// What the host of a daemon gives it.
#[derive(Drop)]
pub struct Given {
    /// The turns of its port.
    pub turns: Vec<Turn>,
    /// When their datagrams come.
    pub due: Vec<u64>,
    /// What its clock shows, reading by reading.
    pub readings: Vec<u64>,
    /// The lines of its commands file.
    pub lines: Vec<DueLine>,
}

impl Given {
    // Nothing is given yet.
    fn new(alloc: Global) -> Given {
        Given {
            turns: Vec::new(alloc),
            due: Vec::new(alloc),
            readings: Vec::new(alloc),
            lines: Vec::new(alloc),
        }
    }
}

/// What a daemon makes of what it is given.
#[derive(Drop)]
pub struct Made {
    /// What it does.
    pub happenings: Vec<Happening>,
    /// The events of that.
    pub events: Vec<Event>,
}

impl Made {
    // Nothing is made yet.
    fn new(alloc: Global) -> Made {
        Made {
            happenings: Vec::new(alloc),
            events: Vec::new(alloc),
        }
    }
}

impl Script {
    /// Nothing happens yet to a daemon whose clock has this state for ever.
    pub fn new(alloc: Global, reference: Reference) -> Script {
        Script {
            reference,
            given: Given::new(alloc),
            made: Made::new(alloc),
            alloc,
            plan: Service::new(alloc),
        }
    }

    /// A line is appended to the commands file.
    pub fn line(&mut self, at: u64, text: &'static str) -> Result<(), Fail> {
        self.given.lines.push(DueLine { at, text })?;
        if is_passed_over(text.as_bytes()) {
            return Ok(());
        }
        let number = self.given.lines.len() as u64;
        match parse_command(text) {
            Ok(command) => {
                let _ = self.plan.command(&command);
                self.made.happenings.push(Happening::Command { number })?;
                self.made.events.push(Event::Command(command))?;
            }
            Err(fault) => self
                .made
                .happenings
                .push(Happening::Faulty { number, fault })?,
        }
        Ok(())
    }

    /// A wait ends with nothing.
    pub fn wait(&mut self, at: u64) -> Result<(), Fail> {
        Ok(self.given.readings.push(at)?)
    }

    /// A wait ends with nothing just before a datagram comes.
    pub fn wait_before(&mut self, at: u64) -> Result<(), Fail> {
        self.wait(at.saturating_sub(WAIT))
    }

    /// When a datagram has come, none can be received, and then it is.
    pub fn fails_to_receive(&mut self, at: u64) -> Result<(), Fail> {
        self.given.turns.push(Turn {
            arrival: None,
            transmit: NO_MOMENT,
            departure: NO_MOMENT,
            sends: false,
        })?;
        self.given.readings.push(at.saturating_add(READ))?;
        Ok(self.made.happenings.push(Happening::NothingReceived)?)
    }

    /// A wait ends with nothing, and then nothing can be received.
    pub fn ends(&mut self, at: u64) -> Result<(), Fail> {
        self.wait(at)?;
        Ok(self.made.happenings.push(Happening::NothingReceived)?)
    }

    /// A datagram comes while the process stands still, which goes on a while later: it is dropped.
    pub fn stale(&mut self, at: u64, address: Address, octets: &[u8]) -> Result<(), Fail> {
        self.turn(at, address, octets, true)?;
        Ok(())
    }

    // A datagram is to come.
    fn turn(
        &mut self,
        at: u64,
        address: Address,
        octets: &[u8],
        sends: bool,
    ) -> Result<Arrival, Fail> {
        // The ports of senders, one after another.
        let port = (self.given.turns.len() % 50_000) as u16;
        let receipt = moment_at(at.saturating_add(RECEIVED))?;
        self.given.due.push(at)?;
        self.given.turns.push(Turn {
            arrival: Some(Incoming {
                address,
                port,
                receipt,
                octets: Octets::new(octets.to_vec(self.alloc)?),
            }),
            transmit: moment_at(at.saturating_add(TRANSMITTED))?,
            departure: moment_at(at.saturating_add(DEPARTED))?,
            sends,
        })?;
        Ok(Arrival {
            address,
            port,
            length: octets.len().min(MOST_RECEIVED_OCTETS),
            receipt,
        })
    }

    /// A datagram comes, and is answered. Gives its reply, where it gets one and that can be sent.
    pub fn datagram(
        &mut self,
        at: u64,
        address: Address,
        octets: &[u8],
        sends: bool,
    ) -> Result<Option<Reply>, Fail> {
        let arrival = self.turn(at, address, octets, sends)?;
        self.given.readings.push(at.saturating_add(READ))?;
        self.made
            .happenings
            .push(Happening::Datagram { arrival, sends })?;
        let transmit = moment_at(at.saturating_add(TRANSMITTED))?;
        let reference = self.reference;
        let octets = &octets[..octets.len().min(MOST_RECEIVED_OCTETS)];
        let answer = self
            .plan
            .datagram(address, arrival.receipt, transmit, &reference, octets);
        self.made.events.push(Event::Datagram {
            address,
            receipt: arrival.receipt,
            transmit,
            reference,
            octets: Octets::new(octets.to_vec(self.alloc)?),
        })?;
        if !sends {
            return Ok(None);
        }
        self.departs(at, address, answer)
    }

    // The reply of an answer departs, if there is one.
    fn departs(
        &mut self,
        at: u64,
        address: Address,
        answer: Answer,
    ) -> Result<Option<Reply>, Fail> {
        match answer {
            Answer::Silent(_) => Ok(None),
            Answer::Rate(reply) => Ok(Some(reply.octets)),
            Answer::Deny(reply) | Answer::Nak(reply) => Ok(Some(reply)),
            Answer::Time { reply, saved } => {
                let moment = departure_at(at)?;
                self.plan.departed(address, saved, moment);
                self.made.events.push(Event::Departed {
                    address,
                    receive: saved,
                    moment,
                })?;
                Ok(Some(reply.octets))
            }
        }
    }
}

// The departure of the reply to a datagram that came at a moment: the middle of what the clock shows before and behind its send.
fn departure_at(at: u64) -> Result<Moment, Fail> {
    let before = moment_at(at.saturating_add(TRANSMITTED))?;
    let behind = moment_at(at.saturating_add(DEPARTED))?;
    let between = behind.stamp.0.saturating_sub(before.stamp.0);
    Ok(Moment {
        era: behind.era,
        stamp: Stamp(behind.stamp.0.saturating_sub(between / 2)),
    })
}

/// The moment of a turn without a datagram.
const NO_MOMENT: Moment = Moment {
    era: 0,
    stamp: Stamp(0),
};

/// The time in the year at `second` and `millisecond` of `day`, in nanoseconds.
pub fn time(day: u16, second: u32, millisecond: u16) -> u64 {
    let seconds = u64::from(day)
        .saturating_mul(86_400)
        .saturating_add(u64::from(second));
    seconds
        .saturating_mul(SECOND)
        .saturating_add(u64::from(millisecond).saturating_mul(1_000_000))
}
