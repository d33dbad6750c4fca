//! A commands file that is looked at in each turn of a server, before its datagram is answered.
ghost use Rattle.std.specs.Prelude.{◌≡◌, ℕ, ◌-◌, ◌<◌, ◌+◌, ◌≤◌, None, Some, option_map, [], vec_len, min, IfSome, IfOk, IfErr, MatchResult};
ghost use Rattle.std.specs.Option.{option_map_or};
ghost use Rattle.std.proofs.Props.{props};
ghost use Rattle.ntp_host.specs.Looking.{is_final, next_from, HasNoEnd, GivesPart, GivesEach, LooksAt};

use crate::appended_file::{AppendedFile, Growth};
use crate::clock_wire::HostClocks;
use crate::progress::{MOST_COMMANDS_OCTETS, MOST_PIECE_OCTETS, Progress};
use ntp_packet::Moment;
use ntp_port::CommandsSource;
use std::alloc::Allocator;
use std::fmt;
use std::io::{self, Write};

/// The octets that are given of a line that has no room in a piece: one more than a line of commands may have.
const CUT_OCTETS: usize = 4_097;

/// Returns whether a commands file of `octets` octets is nearly full: it has 8 in 10 of the most.
pub fn is_nearly_full(octets: u64) -> bool {
    octets >= (MOST_COMMANDS_OCTETS * 8).div_ceil(10)
}

/// Writes that a commands file of `octets` octets is nearly full. A failed write is passed over.
pub fn write_nearly_full<W: Write>(out: &mut W, octets: u64) {
    let _ = write!(
        out,
        "has {octets} of at most {MOST_COMMANDS_OCTETS} octets; no line behind these is carried out"
    );
}

/// What is wrong with a commands file.
#[derive(Clone, Copy)]
pub enum CommandsFault {
    /// It is not there or cannot be read, or there is no memory for its lines. Nothing is given until it is well again.
    Unreadable(io::Error),
    /// It has more than `MOST_COMMANDS_OCTETS` octets. The lines that end in these are given.
    Full,
    /// Another file stands at its path.
    Replaced,
    /// It has fewer octets than the lines that were given.
    Shorter,
    /// It was modified, and did not become longer within five seconds.
    Rewritten,
}

impl CommandsFault {
    /// Returns whether nothing is given any more, whatever becomes of the file.
    pub fn is_final(&self) -> bool
        ensures { result ≡ is_final self.now }
    {
        !matches!(self, CommandsFault::Unreadable(_) | CommandsFault::Full)
    }
}

impl fmt::Display for CommandsFault {
    fn fmt<W: fmt::Write>(&self, f: &mut fmt::Formatter<W>) -> fmt::Result {
        let why = match self {
            CommandsFault::Unreadable(error) => return write!(f, "cannot be read: {error}"),
            CommandsFault::Full => return write!(
                f,
                "has more than {MOST_COMMANDS_OCTETS} octets; no line behind these is carried out"
            ),
            CommandsFault::Replaced => "another file stands there",
            CommandsFault::Shorter => "it is shorter than what was read of it",
            CommandsFault::Rewritten => "it was written anew in its place",
        };
        write!(f, "{why}; no line is carried out until a restart")
    }
}

/// The commands file of a server. It stays open, and is read on where the metadata of what stands at its path show that it grew.
/// Written anew, it looks so too if it is longer then, and unchanged at the same length within a tick of the file system's clock.
#[derive(Drop)]
pub struct CommandsFile<'a, F: AppendedFile> {
    file: F,
    clocks: &'a HostClocks,
    progress: Progress,
    growth: Growth,
    // Until it was read to its end, what stands at its path does not matter: so a start carries out one file, and no part of one.
    was_read: bool,
    fault: Option<CommandsFault>,
    ghost knows: { IfSome (F.octets file) (λ octets. HasNoEnd octets progress.given progress.searched) } by { Prim.hlevel props },
}

impl<'a, F: AppendedFile> CommandsFile<'a, F> {
    /// Begins with a file of which nothing was read. `clocks` have the time of each look. The error is the system's.
    pub fn over(mut file: F, clocks: &'a HostClocks) -> io::Result<CommandsFile<'a, F>>
        ensures { IfOk result (λ commands. (F.octets commands.file ≡ F.octets file) × (commands.progress.given ≡ 0)) }
    {
        Ok(CommandsFile {
            growth: Growth::new(file.state(false)?),
            file,
            clocks,
            progress: Progress::new(),
            was_read: false,
            fault: None,
        })
    }

    /// Returns what was wrong with it at the last look; nothing before the first.
    pub fn fault(&self) -> Option<CommandsFault> {
        self.fault
    }

    /// Returns how many octets of it the lines have that were given.
    pub fn octets(&self) -> u64
        ensures { result ≡ self.now.progress.given }
    {
        self.progress.given
    }

    // Does what `look` does, where it is not given up, and notes whether it has too many octets.
    fn read_on<A: Allocator>(&mut self, alloc: A) -> Result<Option<Vec<u8, A>>, CommandsFault>
        ensures most { IfOk result (λ lines. IfSome lines (λ octets. vec_len octets ≤ 65536)) }
        ensures looks { MatchResult result
            (λ lines. LooksAt F.octets F.states self.old.file self.new.file self.old.progress self.new.progress
            self.old.growth.last None self.new.fault (option_map (λ octets. octets.items) lines))
            (λ fault. LooksAt F.octets F.states self.old.file self.new.file self.old.progress self.new.progress
            self.old.growth.last None (Some fault) None) }
        ensures fault { IfOk result (λ _. IfSome self.new.fault (λ fault. fault ≡ CommandsFault.Full)) }
    {
        let state = self.file.state(self.was_read);
        let found = state.map_err(CommandsFault::Unreadable)?;
        if !self.growth.is_of_file(found) {
            return Err(CommandsFault::Replaced);
        }
        if found.length < self.octets() {
            return Err(CommandsFault::Shorter);
        }
        let now = self.clocks.ticks.get();
        self.growth.see(found, now);
        self.fault = (found.length > MOST_COMMANDS_OCTETS).then_some(CommandsFault::Full);
        if self.progress.next_count(found.length) > 0 {
            let lines = self.lines(alloc, found.length);
            return lines.map_err(CommandsFault::Unreadable);
        }
        self.was_read = true;
        if self.growth.is_rewritten(now) {
            return Err(CommandsFault::Rewritten);
        }
        Ok(None)
    }

    // Reads the next piece of a file of this length, and returns its lines; nothing where it has none, and is the last one.
    fn lines<A: Allocator>(&mut self, alloc: A, length: u64) -> io::Result<Option<Vec<u8, A>>>
        ensures most { IfOk result (λ lines. IfSome lines (λ octets. vec_len octets ≤ 65536)) }
        ensures octets { F.octets self.new.file ≡ F.octets self.old.file }
        ensures given { IfOk result (λ lines. IfSome (F.octets self.old.file)
            (λ file. GivesPart file self.old.progress.given self.new.progress.given (option_map_or (λ octets. octets.items) lines []))) }
        ensures not_given { IfErr result (λ _. self.new.progress.given ≡ self.old.progress.given) }
        ensures states { F.states self.new.file ≡ F.states self.old.file }
        ensures fault { self.new.fault ≡ self.old.fault }
        ensures each { IfOk result (λ _. IfSome (F.octets self.old.file) (λ file. self.old.progress.searched < min length MOST_COMMANDS_OCTETS
            → GivesEach file (min length MOST_COMMANDS_OCTETS) self.old.progress self.new.progress)) }
    {
        let count = self.progress.next_count(length);
        let mut octets = vec![in alloc; 0; count]?;
        self.file
            .read_behind(self.progress.next_from(), &mut octets)?;
        let next = self.progress.behind(&octets);
        let given = next.given - self.progress.given;
        if given > MOST_PIECE_OCTETS {
            octets.resize(CUT_OCTETS, 0)?;
            self.file.read_behind(self.progress.given, &mut octets)?;
            octets.push(b'\n')?;
            self.progress = next;
            return Ok(Some(octets));
        }
        self.progress = next;
        if given == 0 && next.next_count(length) == 0 {
            return Ok(None);
        }
        octets.truncate(given as usize);
        Ok(Some(octets))
    }
}

impl<'a, F: AppendedFile, A: Allocator> CommandsSource<A> for CommandsFile<'a, F> {
    ghost looked = { λ before after asked given. LooksAt F.octets F.states before.file after.file before.progress after.progress before.growth.last
        before.fault after.fault given };

    /// Returns the complete lines behind those that were given, as far as 65,536 octets have them, or a longer line's first 4,097
    /// octets with a line feed; no octets where a longer line has not ended yet; nothing where nothing is to be read, or at a
    /// fault but `Full`. What is not read for want of memory is read at a later look.
    fn look(&mut self, alloc: A, receipt: Option<Moment>) -> Option<Vec<u8, A>>
        ensures most { IfSome result (λ octets. vec_len octets ≤ 65536) }
        ensures looks { LooksAt F.octets F.states self.old.file self.new.file self.old.progress self.new.progress self.old.growth.last
            self.old.fault self.new.fault (option_map (λ octets. octets.items) result) }
    {
        if self.fault.is_some_and(|fault| fault.is_final()) {
            return None;
        }
        let lines = self.read_on(alloc);
        if let Err(fault) = &lines {
            self.fault = Some(*fault);
        }
        lines.ok().flatten()
    }
}
