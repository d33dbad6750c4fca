//! What the model says that a daemon does.

use crate::script::{Happening, Script};
use ntp_mac::Reply;
use ntp_port::Sent;
use ntp_reply::Answer;
use ntp_reports::Counts;
use ntp_service::{
    Address, Arrival, LineFault, LineOutcome, Outcome, Sending, Service, TurnOutcome,
};
use std::alloc::Global;
use std::io::Write;
use std::test::Fail;
use test_support::run;

/// A reply that is to be sent.
#[derive(Drop)]
struct Due {
    address: Address,
    port: u16,
    reply: Reply,
}

/// What a daemon does by the model.
#[derive(Drop)]
pub struct Expected {
    /// The answers to its lines of commands.
    pub answers: Vec<u8>,
    /// How many of these there are.
    pub answered: usize,
    /// What it counts.
    pub counts: Counts,
    /// How many turns it makes.
    pub turns: u64,
    /// How many replies it cannot send.
    pub not_sent: u64,
    replies: Vec<Due>,
    outcomes: Vec<Outcome>,
    // How many of the outcomes were looked at.
    seen: usize,
}

/// What a daemon does by a script, as the model has it: by the outcomes that `Service::run` gives to the events of a script.
pub fn model_of(alloc: Global, script: &Script) -> Result<Expected, Fail> {
    let mut service = Service::new(alloc);
    let mut expected = Expected {
        answers: Vec::new(alloc),
        answered: 0,
        counts: Counts::new(),
        turns: 0,
        not_sent: 0,
        replies: Vec::new(alloc),
        outcomes: run(&mut service, &script.made.events)?,
        seen: 0,
    };
    for happening in &script.made.happenings {
        expected.take(*happening)?;
    }
    Ok(expected)
}

impl Expected {
    /// How many replies are sent.
    pub fn sent(&self) -> usize {
        self.replies.len()
    }

    /// Whether just these replies were sent, each to where it has to be, octet for octet.
    pub fn are_sent(&self, sent: &[Sent]) -> bool {
        if sent.len() != self.replies.len() {
            return false;
        }
        for (due, sent) in self.replies.iter().zip(sent) {
            let is_there = due.address == sent.address && due.port == sent.port;
            if !is_there || due.reply.octets() != sent.reply.octets() {
                return false;
            }
        }
        true
    }

    // Takes what happens next.
    fn take(&mut self, happening: Happening) -> Result<(), Fail> {
        match happening {
            Happening::Command { number } => self.command(number),
            Happening::Faulty { number, fault } => self.faulty(number, fault),
            Happening::Datagram { arrival, sends } => self.datagram(arrival, sends),
            Happening::NothingReceived => {
                self.turn(&TurnOutcome::NothingReceived);
                Ok(())
            }
        }
    }

    // The next outcome.
    fn next(&mut self) -> Result<Outcome, Fail> {
        let Some(outcome) = self.outcomes.get(self.seen) else {
            return Err(Fail::new("an outcome is wanted"));
        };
        self.seen = self.seen.saturating_add(1);
        Ok(outcome.clone()?)
    }

    // The line of a command is answered.
    fn command(&mut self, number: u64) -> Result<(), Fail> {
        match self.next()? {
            Outcome::Done => {
                writeln!(self.answers, "{number} done")?;
                self.line(LineOutcome::Done);
            }
            Outcome::Refused(refusal) => {
                let word = refusal.word();
                writeln!(self.answers, "{number} refused {word}")?;
                self.line(LineOutcome::Refused(refusal));
            }
            _ => return Err(Fail::new("the outcome of a command is wanted")),
        }
        Ok(())
    }

    // A line that is no command is answered.
    fn faulty(&mut self, number: u64, fault: LineFault) -> Result<(), Fail> {
        let word = fault.word();
        writeln!(self.answers, "{number} faulty {word}")?;
        self.line(LineOutcome::Faulty(fault));
        Ok(())
    }

    // A line is counted.
    fn line(&mut self, outcome: LineOutcome) {
        self.answered = self.answered.saturating_add(1);
        self.counts.count_line(outcome);
    }

    // A datagram is answered.
    fn datagram(&mut self, arrival: Arrival, sends: bool) -> Result<(), Fail> {
        let Outcome::Datagram(answer) = self.next()? else {
            return Err(Fail::new("the outcome of a datagram is wanted"));
        };
        let sending = self.sending(&answer, sends)?;
        if sending == Sending::NotSent {
            self.not_sent = self.not_sent.saturating_add(1);
        } else if let Some(reply) = answer.reply() {
            self.replies.push(Due {
                address: arrival.address,
                port: arrival.port,
                reply: reply.clone()?,
            })?;
        }
        self.turn(&TurnOutcome::Answered {
            arrival,
            answer,
            sending,
        });
        Ok(())
    }

    // What becomes of the reply of an answer. The departure of a time reply is an event.
    fn sending(&mut self, answer: &Answer, sends: bool) -> Result<Sending, Fail> {
        match answer {
            Answer::Silent(_) => Ok(Sending::NoReply),
            _ if !sends => Ok(Sending::NotSent),
            Answer::Rate(_) | Answer::Deny(_) | Answer::Nak(_) => Ok(Sending::Sent),
            Answer::Time { .. } => match self.next()? {
                Outcome::Noted => Ok(Sending::Noted),
                _ => Ok(Sending::NotNoted),
            },
        }
    }

    // A turn is counted.
    fn turn(&mut self, outcome: &TurnOutcome) {
        self.turns = self.turns.saturating_add(1);
        self.counts.count_turn(outcome);
    }
}
