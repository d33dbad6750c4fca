//! Exit statuses of a server that failed to start.
ghost use Rattle.std.specs.Prelude.{◌≡◌};
ghost use Rattle.ntp_admin.specs.Starts.{status_code, load_status};

use crate::RegisterFault;
use crate::loading::LoadFault;
use crate::status::{Status, memory_status};
use ntp_service::{LineFault, Refusal};
use std::io::Write;

/// Tells in one line why a register file gives no service, and gives the exit status: 3 where it could not be read, 4 for
/// want of memory, else 1. A failed write is passed over.
pub fn load_status<F: Write>(fault: LoadFault, faults: &mut F) -> Status
    ensures { status_code result ≡ load_status fault }
{
    match fault {
        LoadFault::Read => {
            let _ = writeln!(faults, "register: read");
            Status::IoFailed
        }
        LoadFault::Register(fault) => register_status(fault, faults),
        LoadFault::Refused { place, refusal } => {
            let _ = writeln!(faults, "register: customer {place}: {}", refusal.word());
            match refusal {
                Refusal::NoMemory => Status::MemoryOut,
                _ => Status::TextFaulty,
            }
        }
    }
}

// Tells what is wrong with the text of a register file, and gives the exit status.
fn register_status<F: Write>(fault: RegisterFault, faults: &mut F) -> Status
    ensures { status_code result ≡ load_status (LoadFault.Register fault) }
{
    let word = match fault {
        RegisterFault::Toml => "toml",
        RegisterFault::Shape => "shape",
        RegisterFault::Reference => "reference",
        RegisterFault::NoMemory
        | RegisterFault::Entry {
            fault: LineFault::NoMemory,
            ..
        } => return memory_status(faults),
        RegisterFault::Entry { place, fault } => {
            let _ = writeln!(faults, "register: customer {place}: {}", fault.word());
            return Status::TextFaulty;
        }
    };
    let _ = writeln!(faults, "register: {word}");
    Status::TextFaulty
}
