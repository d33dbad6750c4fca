//! What an administrator orders.
ghost use Rattle.std.specs.Prelude.{◌≡◌, option_map};
ghost use Rattle.std.specs.Int.NonZero.{non_zero_u16_get};
ghost use Rattle.ntp_service.specs.Commands.{address_named, number_named, number_wanted};
ghost use Rattle.ntp_service.specs.Vocabulary.{command_word};

use crate::Address;
use ntp_mac::Key;
use std::num::NonZero;

/// A command. Numbers and budgets are from 1 to 65,535, by their type.
#[derive(Clone, Copy, Debug, PartialEq, Eq)]
pub enum Command {
    /// Enrols an address with a key, the key's number, and a budget of signed queries in a window.
    Enrol {
        address: Address,
        number: NonZero<u16>,
        key: Key,
        budget: NonZero<u16>,
    },
    /// Ends the enrolment of an address.
    Revoke {
        address: Address,
    },
    /// Gives an enrolled address another budget of signed queries in a window; what was counted stays.
    Budget {
        address: Address,
        budget: NonZero<u16>,
    },
    /// Gives an enrolled address one key more, with the key's number; all else stays.
    Rollover {
        address: Address,
        number: NonZero<u16>,
        key: Key,
    },
    /// Takes the key of a number from an enrolled address that has another; all else stays.
    Retire {
        address: Address,
        number: NonZero<u16>,
    },
}

impl Command {
    /// The first word of its line.
    pub fn word(&self) -> &'static str
        ensures { result.now ≡ command_word self.now }
    {
        match self {
            Command::Enrol { .. } => "enrol",
            Command::Revoke { .. } => "revoke",
            Command::Budget { .. } => "budget",
            Command::Rollover { .. } => "rollover",
            Command::Retire { .. } => "retire",
        }
    }

    /// The address that the command names.
    pub fn address(&self) -> Address
        ensures { result ≡ address_named self.now }
    {
        match *self {
            Command::Enrol { address, .. }
            | Command::Revoke { address }
            | Command::Budget { address, .. }
            | Command::Rollover { address, .. }
            | Command::Retire { address, .. } => address,
        }
    }

    /// The key number that the command names, if it names one.
    pub fn number_named(&self) -> Option<NonZero<u16>>
        ensures { result ≡ number_named self.now }
    {
        match *self {
            Command::Enrol { number, .. }
            | Command::Rollover { number, .. }
            | Command::Retire { number, .. } => Some(number),
            _ => None,
        }
    }

    /// The key number that the command asks for: an enrolment and a rollover ask for one.
    pub fn number_wanted(&self) -> Option<NonZero<u16>>
        ensures { option_map non_zero_u16_get result ≡ number_wanted self.now }
    {
        match *self {
            Command::Enrol { number, .. } | Command::Rollover { number, .. } => Some(number),
            _ => None,
        }
    }
}
