//! The files of the daemon `labntpd`; every fault of these and of commands, in words that show no key; and what is hardly meant.
#![tactic(auto)]

pub mod command_line;
mod command_words;
mod configuration;
mod fault;
mod hardly_meant;
mod key_text;
mod setting;
mod values;
mod wanted;

pub use command_words::{fault_meaning, faulty_place, refusal_meaning, word_at};
pub use configuration::{
    Clock, ClockDaemon, Configuration, Endpoint, Listen, Text, configuration_faults,
    read_configuration,
};
pub use fault::{ConfigurationFault, Found};
pub use hardly_meant::{HardlyMeant, address_warning, budget_warning, key_warning};
pub use key_text::{KeyWrong, ShownWord, key_in_file, key_wrong};
pub use setting::{Setting, is_fixed};
pub use values::{is_name, path_at};
pub use wanted::{KeyLines, Wanted, WantedCustomer, WantedKey, read_wanted, write_wanted};
