//! The assembly of the daemon: the parts of one that serves, put together, and what it does beside serving.
//!
//! It is generic in what the daemon has of its host: the port, the files, the clocks, the source of the clock's state, and where
//! its log and its answers are written. So the program `labntpd` and programs whose parts lie in memory run one and the same
//! assembly.
#![tactic(auto)]

mod command_log;
mod customers_file;
mod daemon_clock;
mod files;
mod housekeeping;
mod news;
mod observers;
mod parts;
mod replaced_file;
mod serving;

pub use daemon_clock::DaemonClock;
pub use observers::{DaemonObserver, ReportingObserver};
pub use parts::{DaemonPort, Host, Parts, StartupFacts};
pub use serving::{Assembly, ServeFault};
