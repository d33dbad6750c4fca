//! The commands file, carried out line by line.
ghost use Rattle.std.specs.Prelude.{◌≡◌, ◌<◌, ◌≤◌, ◌==◌, [], ◌∷◌, length, drop, position, IfSome, IfNone, MatchOption};
ghost use Rattle.ntp_service.specs.InTurn.{InTurn};
ghost use Rattle.ntp_admin.specs.FileText.{IsText};
ghost use Rattle.ntp_admin.specs.CommandsFile.{most_line_octets, complete_lines, line_reading, count_on, CarriesOut, CarriesOutDue};
ghost use Rattle.ntp_admin.specs.Applying.{AppliesLine};

use crate::fault_lines::FaultLines;
use crate::file_text::{MOST_FILE_OCTETS, text_of};
use crate::{is_passed_over, parse_command};
use ntp_service::{Command, LineFault, LineOutcome, Observer, Service};
use std::alloc::Allocator;
use std::io::Write;

/// How many octets a line of commands, or of a script, has at most, without its line feed.
pub const MOST_LINE_OCTETS: usize = 4_096;

/// Carries out the complete lines of these octets, which a line feed ends, in order, each once. In the commands file `before`
/// lines stand in front of them. Returns how many lines are applied by now.
///
/// An empty line and one that begins with `#` are passed over, whatever their octets. Any other line has `MOST_LINE_OCTETS`
/// octets at most, is UTF-8 and says a command, or it is faulty. Each line counts as applied, also one that is passed over
/// or faulty, or whose command is refused. The observer hears of each line that is not passed over, by its number in the
/// file, counted from 1: its command, if it is one, and what became of it. A number that 64 bits do not hold stays at the
/// most that they hold.
///
/// Octets behind the last line feed are not looked at. It takes no memory itself; an enrolment and a rollover do.
pub fn apply_lines<A: Allocator + Copy, O: Observer>(
    service: &mut Service<A>,
    octets: &[u8],
    before: u64,
    observer: &mut O,
) -> u64
    ensures count { result ≡ count_on before (length (complete_lines octets.now)) }
    ensures lines { CarriesOut A most_line_octets before (complete_lines octets.now) service.old service.new
        (InTurn O.heard observer.old observer.new) }
{
    carry_out_lines(service, octets, MOST_LINE_OCTETS, before, observer)
}

/// Carries out the lines of a commands file that are due: of its complete lines, which a line feed ends, those behind
/// the first `applied` ones, in order, each once. Returns how many lines are applied by now, in lines of the file from its
/// beginning. What becomes of a line is as `apply_lines` says, but it has as many octets as the file may have.
///
/// An observer writes to `faults` of each line that is no command, or whose command is refused: `commands: line N: WORD`,
/// where N counts the file's lines from 1. A write that fails is passed over.
///
/// Nothing is applied where the file has more than `MOST_FILE_OCTETS` octets or is not UTF-8; nor where it has no more
/// lines than were applied.
pub fn commands_step<A: Allocator + Copy, W: Write>(
    service: &mut Service<A>,
    octets: &[u8],
    applied: u64,
    faults: &mut W,
) -> u64
    ensures due { CarriesOutDue A applied octets.now result service.old service.new }
    ensures nothing { ¬ IsText octets.now → (result ≡ applied) × (service.new ≡ service.old) × (faults.new ≡ faults.old) }
{
    if text_of(octets).is_none() {
        return applied;
    }
    match behind(octets, applied) {
        Some(due) => {
            let mut lines = FaultLines::new(faults);
            carry_out_lines(service, due, MOST_FILE_OCTETS, applied, &mut lines)
        }
        None => applied,
    }
}

// Returns what stands behind the first `lines` complete lines, where there are as many.
fn behind(octets: &[u8], lines: u64) -> Option<&[u8]>
    ensures behind { IfSome result (λ rest. (lines ≤ length (complete_lines octets.now))
        × (complete_lines rest.now ≡ drop lines (complete_lines octets.now))) }
    ensures fewer { IfNone result (length (complete_lines octets.now) < lines) }
{
    let mut rest = octets;
    for _line in 0..lines {
        let (_, others) = first_line(rest)?;
        rest = others;
    }
    Some(rest)
}

// The first complete line, and what stands behind its line feed.
fn first_line(octets: &[u8]) -> Option<(&[u8], &[u8])>
    ensures cut { MatchOption result (complete_lines octets.now ≡ [])
        (λ cut. complete_lines octets.now ≡ cut.0.now ∷ complete_lines cut.1.now) }
    ensures less { IfSome result (λ cut. length cut.1.now < length octets.now) }
{
    let end = line_feed(octets)?;
    Some((&octets[..end], &octets[end + 1..]))
}

// The place of the first line feed.
fn line_feed(octets: &[u8]) -> Option<usize>
    ensures { result ≡ position (λ octet. octet == 10) octets.now }
{
    octets.iter().position(|octet| *octet == b'\n')
}

// Carries out complete lines of at most `most` octets each, with `before` lines in front of them. Returns how many lines
// are applied then.
fn carry_out_lines<A: Allocator + Copy, O: Observer>(
    service: &mut Service<A>,
    octets: &[u8],
    most: usize,
    before: u64,
    observer: &mut O,
) -> u64
    ensures count { result ≡ count_on before (length (complete_lines octets.now)) }
    ensures lines { CarriesOut A most before (complete_lines octets.now) service.old service.new
        (InTurn O.heard observer.old observer.new) }
{
    let mut rest = octets;
    let mut number = before;
    while let Some((line, others)) = first_line(rest) {
        number = number.saturating_add(1);
        carry_out_line(service, line, most, number, observer);
        rest = others;
    }
    number
}

// Carries out the line with a number, and tells what became of it.
fn carry_out_line<A: Allocator + Copy, O: Observer>(
    service: &mut Service<A>,
    line: &[u8],
    most: usize,
    number: u64,
    observer: &mut O,
)
    ensures { AppliesLine A most number line.now service.old service.new (InTurn O.heard observer.old observer.new) }
{
    match read_line(line, most) {
        Some(Ok(command)) => {
            let result = service.command(&command);
            let outcome = result.map_or_else(LineOutcome::Refused, |()| LineOutcome::Done);
            observer.line(number, Some(&command), outcome);
        }
        Some(Err(fault)) => observer.line(number, None, LineOutcome::Faulty(fault)),
        None => {}
    }
}

// What a line is read as, or nothing where it is passed over.
fn read_line(line: &[u8], most: usize) -> Option<Result<Command, LineFault>>
    ensures { result ≡ line_reading most line.now }
{
    if is_passed_over(line) {
        return None;
    }
    if line.len() > most {
        return Some(Err(LineFault::LineLong));
    }
    match str::from_utf8(line) {
        Ok(text) => Some(parse_command(text)),
        Err(_) => Some(Err(LineFault::NotUtf8)),
    }
}
