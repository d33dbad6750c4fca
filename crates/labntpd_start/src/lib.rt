//! What comes before the daemon serves: its configuration and the files that it names are read and judged, and what it needs of
//! its host is opened. A fault is printed in one line on standard error, and gives the exit status.
#![tactic(auto)]

mod host_addresses;
mod lines;
mod opened;
mod places;
mod prepared;

pub use host_addresses::SeveralAddresses;
pub use lines::{StartLines, log_form, service_manager, start_lines};
pub use opened::{
    answers_file, check_socket, clock_source, commands_at, open_socket, set_up, watch_from_now,
};
pub use places::{NamedFiles, directory_of, readers_of, tell_places};
pub use prepared::{
    KEY_LINE_WANTED, Prepared, PreparedClock, configuration_at, prepare, small_text,
};
