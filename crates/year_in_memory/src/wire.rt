//! The daemon's wire in memory, whose clock moves its host's.

use crate::files::{COMMANDS, Place};
use crate::host::MemoryHost;
use crate::script::DueLine;
use ntp_host::{HostClocks, QueuedWire, Wire};
use ntp_packet::Moment;
use ntp_port::{DatagramRoom, Sent};
use std::io;
use std::net::{SocketAddr, SocketAddrV4};
use test_support::MemoryQueue;

/// A queue in memory. The clocks of its host show its readings too; and as time passes, lines are appended to the commands file, each once
/// its moment has come.
#[derive(Drop)]
pub struct YearWire<'a, 'd> {
    queue: MemoryQueue,
    host: &'a MemoryHost<'d>,
    clocks: &'a HostClocks,
    lines: Appending<'a>,
}

// Lines that are appended to a file as time passes, and how many were.
#[derive(Drop)]
struct Appending<'a> {
    lines: &'a [DueLine],
    appended: usize,
}

impl<'a> Appending<'a> {
    // Appends those whose moment has come by now.
    fn append_to(&mut self, file: &Place, now: u64) -> io::Result<()> {
        let due = self.lines.get(self.appended..).unwrap_or(&[]);
        for line in due {
            if line.at > now {
                break;
            }
            file.append(line.text.as_bytes())?;
            file.append(b"\n")?;
            self.appended = self.appended.saturating_add(1);
        }
        Ok(())
    }
}

impl<'a, 'd> YearWire<'a, 'd> {
    /// The wire of a host, before its first turn.
    pub fn new(
        queue: MemoryQueue,
        host: &'a MemoryHost<'d>,
        clocks: &'a HostClocks,
        lines: &'a [DueLine],
    ) -> YearWire<'a, 'd> {
        YearWire {
            queue,
            host,
            clocks,
            lines: Appending { lines, appended: 0 },
        }
    }

    /// What was sent, in order.
    pub fn sent(&self) -> &[Sent] {
        self.queue.sent()
    }
}

impl<'a, 'd> Wire for YearWire<'a, 'd> {
    fn receive(&mut self, room: &mut DatagramRoom) -> io::Result<(usize, SocketAddr)> {
        self.queue.receive(room)
    }

    fn send(&mut self, target: SocketAddrV4, reply: &[u8]) -> io::Result<usize> {
        self.queue.send(target, reply)
    }

    fn now(&mut self) -> Moment {
        self.queue.now()
    }
}

impl<'a, 'd> QueuedWire for YearWire<'a, 'd> {
    fn ticks(&mut self) -> u64 {
        let now = self.queue.ticks();
        self.host.nanos.set(now);
        if let Ok(commands) = self.host.disk.place(COMMANDS) {
            let _ = self.lines.append_to(commands, now);
        }
        self.clocks.read(self.host);
        now
    }

    fn most_held(&mut self) -> u64 {
        self.queue.most_held()
    }

    fn is_empty(&mut self) -> bool {
        self.queue.is_empty()
    }

    fn wait(&mut self) -> bool {
        self.queue.wait()
    }

    fn drop_next(&mut self) -> bool {
        self.queue.drop_next()
    }
}
