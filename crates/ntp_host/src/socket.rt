//! The sockets of the daemon: the one that it serves at, and its service manager's.
ghost use Rattle.std.specs.Prelude.{◌≡◌, ◌≤◌, ◌≤ℤ◌, ◌<ℤ◌, pos};
ghost use Rattle.libc.specs.Net.{SockOption};

use libc::net::{
    AF_UNIX, IPPROTO_TCP, MSG_DONTWAIT, MSG_NOSIGNAL, POLLERR, SO_RCVBUF, SO_SNDBUF, SOCK_CLOEXEC,
    SOCK_DGRAM, SOL_SOCKET, TCP_NODELAY, getsockopt, poll, sendto, setsockopt, socket,
};
use libc::types::pollfd;
use os::{FromRawFd, errno};
use std::io::{self, ErrorKind};
use std::net::{SocketAddr, UdpSocket};
use std::os::fd::AsRawFd;

/// The first descriptor that a service manager hands down (sd_listen_fds(3)).
const FIRST_INHERITED: i32 = 3;

/// The most octets of the name of a socket of this host (unix(7)).
const MOST_NAME_OCTETS: usize = 108;

/// The bound IPv4 UDP socket that was handed down (sd_listen_fds(3)). The error is the system's, or says what is wanted.
pub fn inherited() -> io::Result<UdpSocket> {
    let socket = unsafe { UdpSocket::from_raw_fd(FIRST_INHERITED) };
    let wanted = match socket.local_addr() {
        // An address of another family than the two of IP is an invalid one.
        Err(error) if error.kind() != ErrorKind::InvalidInput => return Err(error),
        Err(_) | Ok(SocketAddr::V6(_)) => "an IPv4 socket is wanted",
        // Only a socket of TCP has this option (tcp(7)).
        Ok(_) if option_of(&socket, IPPROTO_TCP, TCP_NODELAY).is_ok() => "a UDP socket is wanted",
        Ok(local) if local.port() == 0 => "a socket that is bound is wanted",
        Ok(_) if socket.peer_addr().is_ok() => "a socket that is not connected is wanted",
        Ok(_) => return Ok(socket),
    };
    Err(io::Error::new(ErrorKind::InvalidInput, wanted))
}

/// Sets the size of the receive buffer to `octets`, of which the kernel makes twice as many (socket(7)).
pub fn set_receive_buffer(socket: &UdpSocket, octets: u32) -> io::Result<()> {
    set_option(socket, SO_RCVBUF, octets)
}

/// Sets the size of the send buffer to `octets`, of which the kernel makes twice as many (socket(7)).
pub fn set_send_buffer(socket: &UdpSocket, octets: u32) -> io::Result<()> {
    set_option(socket, SO_SNDBUF, octets)
}

fn set_option(socket: &UdpSocket, name: i32, number: u32) -> io::Result<()>
    requires { SockOption (pos 1) name }
{
    let mut value = [0; 16];
    value[..4].copy_from_slice(&number.to_ne_bytes());
    succeeded(unsafe { setsockopt(socket.as_raw_fd(), SOL_SOCKET, name, &value, 4) })
}

/// The size of the receive buffer in octets, as the kernel counts them: twice what was asked for (socket(7)).
pub fn receive_buffer(socket: &UdpSocket) -> io::Result<u32> {
    option_of(socket, SOL_SOCKET, SO_RCVBUF)
}

fn option_of(socket: &UdpSocket, level: i32, name: i32) -> io::Result<u32>
    requires { SockOption level name }
{
    let mut value = [0; 16];
    let mut length = 4;
    succeeded(unsafe { getsockopt(socket.as_raw_fd(), level, name, &mut value, &mut length) })?;
    Ok(u32::from_ne_bytes([value[0], value[1], value[2], value[3]]))
}

fn succeeded(status: i32) -> io::Result<()> {
    match status {
        0 => Ok(()),
        _ => Err(io::Error::from_raw_os_error(errno())),
    }
}

/// The service manager that started the daemon, which hears of it by datagrams (sd_notify(3)).
#[derive(Clone, Copy)]
pub struct ServiceManager {
    descriptor: i32,
    // The address of its socket, as the kernel takes it, and how many of these octets it has.
    address: [u8; 128],
    length: u32,
    ghost fits: { length ≤ 128 },
}

impl ServiceManager {
    /// The one at the socket `name` (NOTIFY_SOCKET): a path, or a name behind `@` that is no file's; nothing if neither, or too long.
    pub fn at(name: &str) -> Option<ServiceManager> {
        let name = name.as_bytes();
        if name.len() > MOST_NAME_OCTETS || !matches!(name.first(), Some(&(b'/' | b'@'))) {
            return None;
        }
        let mut address = [0; 128];
        address[..2].copy_from_slice(&(AF_UNIX as u16).to_ne_bytes());
        address[2..2 + name.len()].copy_from_slice(name);
        if address[2] == b'@' {
            address[2] = 0;
        }
        Some(ServiceManager {
            descriptor: unsafe { socket(AF_UNIX, SOCK_DGRAM | SOCK_CLOEXEC, 0) },
            address,
            length: 2 + name.len() as u32,
        })
    }

    /// Sends it what sd_notify(3) has for a state, if that needs no waiting.
    pub fn hear(&self, state: &str) {
        let (socket, address) = (self.descriptor, &self.address);
        let flags = MSG_NOSIGNAL | MSG_DONTWAIT;
        unsafe { sendto(socket, state.as_bytes(), flags, address, self.length) };
    }
}

/// What a descriptor is ready for, of these events, without waiting; with what poll tells unasked, and `POLLERR` where it fails.
pub(crate) fn ready(descriptor: i32, events: i16) -> i16 {
    let mut asked = [awaited(descriptor, events)];
    let count = poll(&mut asked, 0);
    told_by(count, asked[0].revents)
}

fn told_by(count: i32, revents: i16) -> i16
    ensures failed { count <ℤ pos 0 → result ≡ POLLERR }
    ensures told { pos 0 ≤ℤ count → result ≡ revents }
{
    if count < 0 { POLLERR } else { revents }
}

pub(crate) fn awaited(descriptor: i32, events: i16) -> pollfd {
    pollfd {
        fd: descriptor,
        events,
        revents: 0,
    }
}
