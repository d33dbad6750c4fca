//! A register file, loaded.
ghost use Rattle.std.specs.Prelude.{◌≡◌, ◌↔◌, ℕ, IfOk, IfErr};
ghost use Rattle.ntp_admin.specs.FileText.{IsText};
ghost use Rattle.ntp_admin.specs.Loading.{Loads, LoadFails, Enrols, IsRefused};

use crate::file_text::text_of;
use crate::{RegisterFault, read_reference, read_register};
use ntp_reply::Reference;
use ntp_service::{Command, Refusal, Service};
use std::alloc::Global;

/// What a register file gives: the reference state, and a service with its customers enrolled.
#[derive(Drop)]
pub struct Loaded {
    pub reference: Reference,
    pub service: Service,
}

/// Why a register file gives no service: the first of these, in this order.
#[derive(Clone, Copy, Debug, PartialEq, Eq)]
pub enum LoadFault {
    /// It could not be read, has more than 1,048,576 octets, or is not UTF-8.
    Read,
    /// The text has this fault; that of the reference comes before those of customers.
    Register(RegisterFault),
    /// The enrolment of the customer at `place`, counted from 0, was refused.
    Refused { place: u64, refusal: Refusal },
}

/// The reference state of a register file that has these octets, and a service with its customers enrolled, in file
/// order. It takes memory for the service's customers, and for the document and its commands while it reads them.
/// Want of memory is `Register` with `NoMemory` while the text is read, and `Refused` with `NoMemory` at an enrolment.
pub fn load_register(alloc: Global, octets: &[u8]) -> Result<Loaded, LoadFault>
    ensures loaded { IfOk result (λ loaded. Loads octets.now loaded.reference loaded.service) }
    ensures read { (result ≡ Err LoadFault.Read) ↔ (¬ IsText octets.now) }
    ensures fault { IfErr result (λ fault. LoadFails octets.now fault) }
{
    let text = text_of(octets).ok_or(LoadFault::Read)?;
    let reference = read_reference(alloc, text).map_err(LoadFault::Register)?;
    let commands = read_register(alloc, text).map_err(LoadFault::Register)?;
    let service = enrolled(alloc, &commands)?;
    Ok(Loaded { reference, service })
}

// A service to which commands were given one after another; each was done.
fn enrolled(alloc: Global, commands: &[Command]) -> Result<Service, LoadFault>
    ensures done { IfOk result (λ service. Enrols commands.now service) }
    ensures fault { IfErr result (λ fault. (place : ℕ) × (refusal : Refusal) × (fault ≡ LoadFault.Refused place refusal)
        × IsRefused commands.now place refusal) }
{
    let mut service = Service::new(alloc);
    for (place, command) in commands.iter().enumerate() {
        if let Err(refusal) = service.command(command) {
            let place = place as u64;
            return Err(LoadFault::Refused { place, refusal });
        }
    }
    Ok(service)
}
