//! The engine of a replay: octets in, answer lines out.
ghost use Rattle.std.specs.Prelude.{◌≡◌, ◌≢◌, ℕ, ◌+◌, ◌≤◌, ◌<◌, ◌^◌, Bool, List, [], ◌∷◌, ◌++◌, length, vec_len, All, OnOk, IfOk, IfErr};
ghost use Rattle.ntp_admin.specs.CommandsFile.{most_line_octets};
ghost use Rattle.labntp_jobs.specs.{Script.lines_of, Replay.Causes, Lines.Judges, Lines.IsPastReading, Watched.Wrote};

use crate::replaying::{ReplayFault, ReplayFaultKind};
use crate::watch::Watched;
use ntp_admin::{MOST_LINE_OCTETS, is_passed_over, parse_event, print_answer};
use ntp_service::{Event, Service};
use std::alloc::Allocator;
use std::io::Write;

/// A service that is fed a script, and has the line that has begun.
#[derive(Drop)]
pub(crate) struct Engine<A: Allocator> {
    service: Service<A>,
    // The octets of the line that has begun.
    line: Vec<u8, A>,
    // How many lines are done.
    done: u64,
    ghost within: { vec_len line ≤ most_line_octets },
    ghost unbroken: { All (λ x. x ≢ 10) line.items },
}

impl<A: Allocator + Copy> Engine<A> {
    ghost use Rattle.labntp_jobs.specs.Engine.{AnswersLines, Halts, IsUnfed, Fed, Stops};

    // An engine with no customers.
    pub(crate) fn new(alloc: A) -> Engine<A>
        ensures { IsUnfed result }
    {
        Engine {
            service: Service::new(alloc),
            line: Vec::new(alloc),
            done: 0,
        }
    }

    // The fault that names the line behind those that are done.
    pub(crate) fn fault(&self, kind: ReplayFaultKind) -> ReplayFault
        requires { self.now.done + 1 < 2 ^ 64 }
        ensures { result ≡ record { line = self.now.done + 1; kind = kind } }
    {
        ReplayFault {
            line: self.done + 1,
            kind,
        }
    }

    // Answers the line that has begun, and leaves it as it is.
    fn answer<W: Write>(&mut self, writer: &mut Watched<W>) -> Result<(), ReplayFaultKind>
        ensures ok { OnOk result ((written : List ℕ) × AnswersLines A self.old.service (self.old.line.items ∷ []) written self.new.service
            × Wrote W.contents writer.old writer.new written) }
        ensures well { OnOk result (writer.new.failed ≡ writer.old.failed) }
        ensures same { self.new.done ≡ self.old.done }
        ensures err { IfErr result (λ kind. (part : List ℕ) × Halts A kind self.old.service (self.old.line.items ∷ []) part
            × Wrote W.contents writer.old writer.new part) }
        ensures past_reading { IfErr result (IsPastReading writer.new.failed) }
    {
        let alloc = self.service.allocator();
        match judge(alloc, &self.line) {
            Err(kind) => Err(kind),
            Ok(None) => Ok(()),
            Ok(Some(event)) => {
                let outcome = self.service.apply(&event);
                let Ok(answer) = print_answer(alloc, &outcome) else {
                    return Err(ReplayFaultKind::NoMemory);
                };
                writer.write_all(answer.as_bytes())
            }
        }
    }

    // Takes one octet.
    fn take_octet<W: Write>(
        &mut self,
        octet: u8,
        writer: &mut Watched<W>,
    ) -> Result<(), ReplayFaultKind>
        requires { self.old.done + 1 < 2 ^ 64 }
        ensures ok { OnOk result ((written : List ℕ) × Fed self.old self.new (octet ∷ []) written
            × Wrote W.contents writer.old writer.new written) }
        ensures well { OnOk result (writer.new.failed ≡ writer.old.failed) }
        ensures bound { self.new.done ≤ self.old.done + 1 }
        ensures err { IfErr result (λ kind. (written : List ℕ) × Stops kind self.old self.new (octet ∷ []) written
            × Wrote W.contents writer.old writer.new written) }
        ensures past_reading { IfErr result (IsPastReading writer.new.failed) }
    {
        if octet == b'\n' {
            self.answer(writer)?;
            self.line.clear();
            self.done += 1;
            return Ok(());
        }
        if self.line.len() == MOST_LINE_OCTETS {
            return Err(ReplayFaultKind::LineLong);
        }
        match self.line.push(octet) {
            Ok(()) => Ok(()),
            Err(_) => Err(ReplayFaultKind::NoMemory),
        }
    }

    // Takes octets, one after another.
    pub(crate) fn feed<W: Write>(
        &mut self,
        octets: &[u8],
        writer: &mut Watched<W>,
    ) -> Result<(), ReplayFaultKind>
        requires { self.old.done + length octets.now < 2 ^ 64 }
        ensures ok { OnOk result ((written : List ℕ) × Fed self.old self.new octets.now written
            × Wrote W.contents writer.old writer.new written) }
        ensures well { OnOk result (writer.new.failed ≡ writer.old.failed) }
        ensures bound { self.new.done ≤ self.old.done + length octets.now }
        ensures err { IfErr result (λ kind. (written : List ℕ) × Stops kind self.old self.new octets.now written
            × Wrote W.contents writer.old writer.new written) }
        ensures past_reading { IfErr result (IsPastReading writer.new.failed) }
    {
        for octet in octets {
            self.take_octet(*octet, writer)?;
        }
        Ok(())
    }

    // Answers the last line, where no line feed ended it.
    pub(crate) fn finish<W: Write>(
        &mut self,
        writer: &mut Watched<W>,
    ) -> Result<(), ReplayFaultKind>
        ensures ok { OnOk result ((written : List ℕ) × AnswersLines A self.old.service (lines_of self.old.line.items) written self.new.service
            × Wrote W.contents writer.old writer.new written) }
        ensures well { OnOk result (writer.new.failed ≡ writer.old.failed) }
        ensures same { self.new.done ≡ self.old.done }
        ensures err { IfErr result (λ kind. (part : List ℕ) × Halts A kind self.old.service (lines_of self.old.line.items) part
            × Wrote W.contents writer.old writer.new part) }
        ensures past_reading { IfErr result (IsPastReading writer.new.failed) }
    {
        if self.line.is_empty() {
            return Ok(());
        }
        self.answer(writer)
    }
}

// The event that a line spells, or none where the line is passed over.
fn judge<A: Allocator + Copy>(alloc: A, line: &[u8]) -> Result<Option<Event<A>>, ReplayFaultKind>
    requires { length line.now ≤ most_line_octets }
    ensures ok { IfOk result (Judges line.now) }
    ensures err { IfErr result (λ kind. (before : List (List ℕ)) (so_far : List ℕ) → Causes A kind before so_far (line.now ∷ []) []) }
    ensures past_reading { IfErr result (λ kind. (failed : Bool) → IsPastReading failed kind) }
{
    let Ok(text) = str::from_utf8(line) else {
        return Err(ReplayFaultKind::NotUtf8);
    };
    if is_passed_over(line) {
        return Ok(None);
    }
    match parse_event(alloc, text) {
        Ok(event) => Ok(Some(event)),
        Err(fault) => Err(ReplayFaultKind::Line(fault)),
    }
}
