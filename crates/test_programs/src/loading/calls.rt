//! The calls that read a register file, and what they have to answer to three texts.

use crate::loading::judging::Judged;
use ntp_admin::{
    Command, LineFault, LoadFault, Loaded, RegisterFault, load_register, parse_command,
    read_reference, read_register, words,
};
use ntp_service::Refusal;
use std::alloc::Global;

/// A register file, and the fault that the readers have to find in it, if any.
#[derive(Clone, Copy)]
pub(crate) struct Text {
    pub(crate) name: &'static str,
    octets: &'static str,
    /// The fault of its customers.
    customers: Option<RegisterFault>,
    /// The fault of its reference.
    reference: Option<RegisterFault>,
}

/// The texts: the one of `examples/register.toml`, one whose second customer has the number 0, and one that is no TOML.
pub(crate) const TEXTS: [Text; 3] = [
    Text {
        name: "example",
        octets: "reference = \"0001ec00000000000000104e495354ec00000000000000\"\n\n\
            [[customer]]\naddress = \"192.0.2.10\"\nnumber = 7\nalgorithm = \"md5\"\nkey = \"6b6579\"\nbudget = 10\n\n\
            [[customer]]\naddress = \"192.0.2.20\"\nnumber = 8\nalgorithm = \"sha1\"\nkey = \"6f74686572\"\nbudget = 10\n",
        customers: None,
        reference: None,
    },
    Text {
        name: "number-0",
        octets: "reference = \"0001ec00000000000000104e495354ec00000000000000\"\n\n\
            [[customer]]\naddress = \"192.0.2.10\"\nnumber = 7\nalgorithm = \"md5\"\nkey = \"6b6579\"\nbudget = 10\n\n\
            [[customer]]\naddress = \"192.0.2.20\"\nnumber = 0\nalgorithm = \"sha1\"\nkey = \"6f74686572\"\nbudget = 10\n",
        customers: Some(RegisterFault::Entry {
            place: 1,
            fault: LineFault::Number,
        }),
        reference: None,
    },
    Text {
        name: "no-toml",
        octets: "reference = \"0001ec00000000000000104e495354ec00000000000000\"\n[[customer]\n",
        customers: Some(RegisterFault::Toml),
        reference: Some(RegisterFault::Toml),
    },
];

// The reference of the first two, as a word.
const REFERENCE: &str = "0001ec00000000000000104e495354ec00000000000000";

// The lines of the example's customers.
const ENROLMENTS: [&str; 2] = [
    "enrol 192.0.2.10 7 md5 6b6579 10",
    "enrol 192.0.2.20 8 sha1 6f74686572 10",
];

/// What each call did with a text.
pub(crate) fn judgements(alloc: Global, text: &Text) -> [(&'static str, Judged); 3] {
    [
        ("read_register", register(alloc, text)),
        ("read_reference", reference(alloc, text)),
        ("load_register", loading(alloc, text)),
    ]
}

fn register(alloc: Global, text: &Text) -> Judged {
    match read_register(alloc, text.octets) {
        Ok(commands) => Judged::of(text.customers.is_none() && are_enrolments(&commands), false),
        Err(fault) => Judged::of(text.customers == Some(fault), is_memory(fault)),
    }
}

fn reference(alloc: Global, text: &Text) -> Judged {
    match read_reference(alloc, text.octets) {
        Ok(reference) => {
            let is_right = text.reference.is_none()
                && words::reference(REFERENCE) == Some(reference);
            Judged::of(is_right, false)
        }
        Err(fault) => Judged::of(text.reference == Some(fault), is_memory(fault)),
    }
}

fn loading(alloc: Global, text: &Text) -> Judged {
    match load_register(alloc, text.octets.as_bytes()) {
        Ok(loaded) => Judged::of(text.customers.is_none() && has_both(loaded), false),
        Err(LoadFault::Register(fault)) => {
            Judged::of(text.customers == Some(fault), is_memory(fault))
        }
        Err(fault) => {
            let memory = matches!(
                &fault,
                LoadFault::Refused {
                    refusal: Refusal::NoMemory,
                    ..
                }
            );
            Judged::of(false, memory)
        }
    }
}

// Whether a fault tells want of memory.
fn is_memory(fault: RegisterFault) -> bool {
    matches!(
        &fault,
        RegisterFault::NoMemory
            | RegisterFault::Entry {
                fault: LineFault::NoMemory,
                ..
            }
    )
}

// Whether commands are the enrolments of the example's customers.
fn are_enrolments(commands: &[Command]) -> bool {
    commands.len() == ENROLMENTS.len()
        && commands
            .iter()
            .zip(&ENROLMENTS)
            .all(|(command, line)| parse_command(line) == Ok(*command))
}

// Whether what was loaded has the example's customers enrolled: each can be revoked once.
fn has_both(loaded: Loaded) -> bool {
    let Loaded {
        reference,
        mut service,
    } = loaded;
    let mut revoked = |line: &str| match parse_command(line) {
        Ok(command) => service.command(&command),
        Err(_) => Err(Refusal::NoMemory),
    };
    words::reference(REFERENCE) == Some(reference)
        && revoked("revoke 192.0.2.10") == Ok(())
        && revoked("revoke 192.0.2.20") == Ok(())
        && revoked("revoke 192.0.2.20") == Err(Refusal::NotEnrolled)
}
