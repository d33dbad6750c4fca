//! What the kernel tells of a socket's queue.
ghost use Rattle.std.specs.Prelude.{◌≡◌, ◌+◌, ◌/◌, IfSome, IfNone};

use crate::HostClocks;
use std::alloc::{AllocError, Global};
use std::fs::{self, Files};
use std::io::Read;
use std::net::SocketAddrV4;

/// How many octets of the kernel's list of sockets are read at once: 128 lines. For each page it goes over all sockets before.
pub const SOCKETS_ROOM: usize = 16_384;

/// How many such parts are read in one go at most.
const MOST_PARTS_AT_ONCE: u32 = 16;

/// The kernel's list of UDP sockets (proc(5)).
const UDP_LIST: &str = "/proc/net/udp";

/// How many octets of a receive buffer a queued datagram takes at least: 576 for what Linux keeps of each, and its headers.
const LEAST_QUEUED_OCTETS: u32 = 640;

/// What is known of a bound socket.
#[derive(Clone, Copy)]
pub struct BoundAt {
    /// Its own address.
    pub local: SocketAddrV4,
    /// The size of its receive buffer, in octets as the kernel counts.
    pub buffer: u32,
    /// Whether a wait for its datagrams never sleeps, and takes a whole processor.
    pub spins: bool,
}

/// What a port keeps to ask for the queue of its socket, which does not block; `room` is for a part of the kernel's list.
#[derive(Drop)]
pub struct KernelQueue<'a> {
    pub clocks: &'a HostClocks,
    pub bound: BoundAt,
    pub room: Vec<u8>,
}

// How many datagrams are at most in a queue that takes `used` octets of a receive buffer: where these are not known, as many as the
// whole buffer holds, and one more, since the kernel takes one in while what is used does not exceed the buffer.
pub(crate) fn most_held(used: Option<u32>, buffer: u32) -> u64
    ensures known { IfSome used (λ octets. result ≡ octets / 640) }
    ensures unknown { IfNone used (result ≡ buffer / 640 + 1) }
{
    match used {
        Some(used) => u64::from(used / LEAST_QUEUED_OCTETS),
        None => u64::from(buffer / LEAST_QUEUED_OCTETS) + 1,
    }
}

impl<'a> KernelQueue<'a> {
    // How many octets of the receive buffer are used, as the kernel counts; nothing where 2,048 other sockets stand before.
    pub(crate) fn used_octets<R: Files>(&mut self, files: &R) -> Option<u32> {
        let mut list = fs::open(files, UDP_LIST).ok()?;
        for _ in 0..MOST_PARTS_AT_ONCE {
            let part = next_part(&mut list, &mut self.room)?;
            if let Some((used, _)) = queue_in(part, self.bound.local) {
                return Some(used);
            }
        }
        None
    }
}

/// How many datagrams the kernel dropped at a UDP socket. Each look reads a part of the kernel's list, so that none takes long.
#[derive(Drop)]
pub struct KernelDrops<R: Files> {
    local: SocketAddrV4,
    room: Vec<u8>,
    // What is read on at the next look.
    list: Option<R::File>,
    /// How many are known of.
    pub drops: u64,
}

impl<R: Files> KernelDrops<R> {
    /// None is known of the socket at this address. The room for a part of the list is taken here.
    pub fn new(alloc: Global, local: SocketAddrV4) -> Result<KernelDrops<R>, AllocError> {
        Ok(KernelDrops {
            local,
            room: Vec::with_capacity(alloc, SOCKETS_ROOM)?,
            list: None,
            drops: 0,
        })
    }

    /// Reads the next part of the list; the first one again behind its end, and behind the line of the socket.
    pub fn look(&mut self, files: &R) {
        let begun = self.list.take();
        if let Some(mut list) = begun.or_else(|| fs::open(files, UDP_LIST).ok())
            && let Some(text) = next_part(&mut list, &mut self.room)
        {
            match queue_in(text, self.local) {
                Some((_, drops)) => self.drops = drops,
                None => self.list = Some(list),
            }
        }
    }
}

// The next lines of the kernel's list; nothing behind its end.
fn next_part<'a, F: Read>(file: &mut F, room: &'a mut Vec<u8>) -> Option<&'a str> {
    room.clear();
    file.take(SOCKETS_ROOM as u64).read_to_end(room).ok()?;
    str::from_utf8(room).ok().filter(|text| !text.is_empty())
}

// The address and the port of a line: its second word, in hexadecimal digits.
fn place_in(line: &str) -> Option<(u32, u16)> {
    let (address, port) = line.split_ascii_whitespace().nth(1)?.split_once(':')?;
    let address = u32::from_str_radix(address, 16).ok()?;
    Some((address, u16::from_str_radix(port, 16).ok()?))
}

// What a part of the list has of a socket: behind the colon of its line's fifth word the octets that are used, at last the drops.
fn queue_in(text: &str, local: SocketAddrV4) -> Option<(u32, u64)> {
    let place = Some((u32::from_ne_bytes(local.ip().octets()), local.port()));
    let line = text.lines().find(|line| place_in(line) == place)?;
    let mut words = line.split_ascii_whitespace();
    let (_, used) = words.nth(4)?.split_once(':')?;
    let used = u32::from_str_radix(used, 16).ok()?;
    Some((used, words.last()?.parse().ok()?))
}
