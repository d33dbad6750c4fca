//! What administrators write, and what they are answered: words and lines; the register file, loaded; a commands file, applied; and what
//! a program ends with, as where a file cannot be read.
#![tactic(auto)]

mod commands;
mod escaped;
mod fault;
mod fault_lines;
mod file_text;
mod form;
mod loading;
mod parsing;
mod parts;
mod printing;
mod register_reader;
mod starting;
mod status;
pub mod words;

pub use commands::{MOST_LINE_OCTETS, apply_lines, commands_step};
pub use escaped::Escaped;
pub use fault::RegisterFault;
pub use fault_lines::FaultLines;
pub use file_text::{MOST_FILE_OCTETS, line_without_text};
pub use loading::{LoadFault, Loaded, load_register};
pub use ntp_service::{Command, Event, LineFault, NoMemory, Octets, Outcome};
pub use parsing::{is_passed_over, parse_command, parse_event};
pub use printing::print_answer;
pub use register_reader::{customer_in, read_reference, read_register};
pub use starting::load_status;
pub use status::{
    Status, failed_status, memory_status, socket_status, unread_status, usage_status, write_status,
};
