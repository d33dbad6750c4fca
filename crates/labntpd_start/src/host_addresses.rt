//! The IPv4 addresses of this host. The kernel picks one of them for what a socket sends that is bound to 0.0.0.0.

use crate::opened::MOST_LIST_OCTETS;
use labntpd_files::Listen;
use ntp_host::read_regular_file;
use std::alloc::Global;
use std::fmt;
use std::fs::{self, Files};
use std::io::{BufRead, BufReader, Read};
use std::net::{Ipv4Addr, SocketAddrV4};

/// The kernel's table of routes, in which the host's own addresses are marked.
const ROUTES: &str = "/proc/net/fib_trie";

/// How many octets of it are read at most: the routes to some 40,000 networks.
const MOST_OCTETS: u64 = 4_194_304;

/// A socket that is bound to 0.0.0.0, on a host with several addresses.
#[derive(Clone, Copy)]
pub struct SeveralAddresses {
    // The first two of them, and the port.
    addresses: [Ipv4Addr; 2],
    port: u16,
    is_inherited: bool,
}

impl SeveralAddresses {
    /// Returns what there is to warn of where a configuration listens: 0.0.0.0, where the host has several addresses beside
    /// loopback. A socket that is handed down counts as bound there if the kernel lists one at 0.0.0.0:123. Returns `None` too if
    /// what the kernel tells cannot be read.
    pub fn configured<R: Files>(
        files: &R,
        alloc: Global,
        listen: Listen,
    ) -> Option<SeveralAddresses> {
        let local = match listen {
            Listen::Bound(endpoint) => endpoint.socket_address(),
            Listen::Inherited => {
                let list = read_regular_file(files, alloc, "/proc/net/udp", MOST_LIST_OCTETS).ok()?;
                if !str::from_utf8(&list).ok()?.contains(": 00000000:007B ") {
                    return None;
                }
                SocketAddrV4::new(Ipv4Addr::UNSPECIFIED, 123)
            }
        };
        SeveralAddresses::at(files, alloc, local, matches!(listen, Listen::Inherited))
    }

    /// Returns what there is to warn of at a socket that is bound at `local`, and perhaps was handed down.
    pub(crate) fn at<R: Files>(
        files: &R,
        alloc: Global,
        local: SocketAddrV4,
        is_inherited: bool,
    ) -> Option<SeveralAddresses> {
        if !local.ip().is_unspecified() {
            return None;
        }
        Some(SeveralAddresses {
            addresses: two_addresses(alloc, fs::open(files, ROUTES).ok()?.take(MOST_OCTETS))?,
            port: local.port(),
            is_inherited,
        })
    }
}

/// The warning in one line, with what to write.
impl fmt::Display for SeveralAddresses {
    fn fmt<W: fmt::Write>(&self, f: &mut fmt::Formatter<W>) -> fmt::Result {
        let ([first, second], port) = (self.addresses, self.port);
        write!(
            f,
            "listen: replies from 0.0.0.0 leave from any address of this host, as {first} and {second}: "
        )?;
        match self.is_inherited {
            true => write!(f, "ListenDatagram={first}:{port} names one"),
            false => write!(f, "listen = \"{first}:{port}\" names one"),
        }
    }
}

// Returns the first two addresses of the host in the kernel's table, beside loopback. A line with an address stands before the
// lines that say what it is.
fn two_addresses(alloc: Global, table: impl Read + Drop) -> Option<[Ipv4Addr; 2]> {
    let mut shown: Option<Ipv4Addr> = None;
    let mut first: Option<Ipv4Addr> = None;
    for line in BufReader::new(alloc, table).ok()?.lines(alloc) {
        let line = line.ok()?;
        let text = line.trim();
        if let Some(address) = text.strip_prefix("|-- ") {
            shown = address.parse().ok();
        } else if text == "/32 host LOCAL"
            && let Some(own) = shown
            && !own.is_loopback()
        {
            match first {
                Some(first) if own != first => return Some([first, own]),
                _ => first = shown,
            }
        }
    }
    None
}
