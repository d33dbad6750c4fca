//! What a program ends with: its exit status, and the line that tells why.
ghost use Rattle.std.specs.Prelude.{◌≡◌, ◌≢◌};
ghost use Rattle.std.specs.IoError.{error_kind};
ghost use Rattle.ntp_admin.specs.Starts.{status_code};

use crate::Escaped;
use std::io::{self, ErrorKind, Write};

/// How a program ends. The least comes first.
#[derive(Clone, Copy, Debug, PartialEq, Eq, PartialOrd, Ord)]
pub enum Status {
    /// All was done.
    Done,
    /// The input text has a fault.
    TextFaulty,
    /// The command line was refused.
    UsageRefused,
    /// A read or a write failed.
    IoFailed,
    /// Memory ran out.
    MemoryOut,
}

impl Status {
    /// The exit status, from 0 to 4.
    pub fn code(self) -> u8
        ensures { result ≡ status_code self }
    {
        match self {
            Status::Done => 0,
            Status::TextFaulty => 1,
            Status::UsageRefused => 2,
            Status::IoFailed => 3,
            Status::MemoryOut => 4,
        }
    }
}

/// Tells that the command line asks for nothing, and gives the exit status. A failed write is passed over.
pub fn usage_status<F: Write>(faults: &mut F) -> Status
    ensures { result ≡ Status.UsageRefused }
{
    let _ = writeln!(faults, "usage");
    Status::UsageRefused
}

/// Tells why the command line could not be read, and gives the exit status. A word that is no text is `usage`.
/// A failed write is passed over.
pub fn unread_status<F: Write>(error: &io::Error, faults: &mut F) -> Status
    ensures memory { error_kind error.now ≡ ErrorKind.OutOfMemory → result ≡ Status.MemoryOut }
    ensures usage { error_kind error.now ≢ ErrorKind.OutOfMemory → result ≡ Status.UsageRefused }
{
    match error.kind() {
        ErrorKind::OutOfMemory => memory_status(faults),
        _ => usage_status(faults),
    }
}

/// Tells what a file, a socket or a setting of this name failed with, and gives the exit status. A failed write is passed over.
pub fn failed_status<F: Write>(name: &str, error: &io::Error, faults: &mut F) -> Status
    ensures memory { error_kind error.now ≡ ErrorKind.OutOfMemory → result ≡ Status.MemoryOut }
    ensures failed { error_kind error.now ≢ ErrorKind.OutOfMemory → result ≡ Status.IoFailed }
{
    if error.kind() == ErrorKind::OutOfMemory {
        return memory_status(faults);
    }
    let _ = writeln!(faults, "{}: {error}", Escaped(name));
    Status::IoFailed
}

/// Tells of want of memory, and gives the exit status. A failed write is passed over.
pub fn memory_status<F: Write>(faults: &mut F) -> Status
    ensures { result ≡ Status.MemoryOut }
{
    let _ = writeln!(faults, "memory");
    Status::MemoryOut
}

/// Tells that a socket failed, and gives the exit status. A failed write is passed over.
pub fn socket_status<F: Write>(faults: &mut F) -> Status
    ensures { result ≡ Status.IoFailed }
{
    let _ = writeln!(faults, "socket");
    Status::IoFailed
}

/// Tells that standard output failed, and gives the exit status. A failed write is passed over.
pub fn write_status<F: Write>(faults: &mut F) -> Status
    ensures { result ≡ Status.IoFailed }
{
    let _ = writeln!(faults, "write");
    Status::IoFailed
}
