//! What the program can be asked to do.

use std::num::NonZero;

/// What the words of a command line ask for.
#[derive(Clone, Copy, Debug, PartialEq, Eq)]
pub enum Job<'a> {
    /// A script is replayed from standard input to standard output.
    Replay,
    /// Customers are served over a socket.
    Serve(Serving<'a>),
    /// A server and a client meet in this process `turns` times.
    Loopback { turns: u32 },
}

/// What a server is begun with.
#[derive(Clone, Copy, Debug, PartialEq, Eq)]
pub struct Serving<'a> {
    /// The path of the register file.
    pub register: &'a str,
    /// The path of the commands file.
    pub commands: &'a str,
    /// The UDP port of 127.0.0.1.
    pub port: NonZero<u16>,
    /// How many turns are made, from 1 to 1,000,000.
    pub turns: u32,
}
