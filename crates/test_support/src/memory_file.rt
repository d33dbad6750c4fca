//! A commands file in memory.
ghost use Rattle.std.specs.Prelude.{Some, drop};

use ntp_host::{AppendedFile, FileState};
use std::alloc::{Allocator, Global};
use std::io::{self, ErrorKind};

/// A file in memory, with the octets that it has in the end. It is found in the states of a list, one after another; behind them each call
/// for a state fails.
#[derive(Drop)]
pub struct MemoryFile<A: Allocator = Global> {
    octets: Vec<u8, A>,
    states: Vec<Option<FileState>, A>,
    // How many of them were asked for.
    asked: usize,
}

impl<A: Allocator> MemoryFile<A> {
    /// A file with these octets, to be found in these states; the call fails where there is none.
    pub fn new(octets: Vec<u8, A>, states: Vec<Option<FileState>, A>) -> MemoryFile<A> {
        MemoryFile {
            octets,
            states,
            asked: 0,
        }
    }
}

impl<A: Allocator> AppendedFile for MemoryFile<A> {
    ghost octets = { λ file. Some file.octets.items };

    ghost states = { λ file. Some (drop file.asked file.states.items) };

    fn state(&mut self, _at_path: bool) -> io::Result<FileState> {
        let at = self.asked;
        if at >= self.states.len() {
            return Err(io::Error::from(ErrorKind::NotFound));
        }
        self.asked = at + 1;
        match self.states[at] {
            Some(state) => Ok(state),
            None => Err(io::Error::from(ErrorKind::NotFound)),
        }
    }

    fn read_behind(&mut self, from: u64, room: &mut [u8]) -> io::Result<()> {
        let from = from as usize;
        if from > self.octets.len() || room.len() > self.octets.len() - from {
            return Err(io::Error::from(ErrorKind::UnexpectedEof));
        }
        room.copy_from_slice(&self.octets[from..from + room.len()]);
        Ok(())
    }
}
