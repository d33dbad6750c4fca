//! What a server asks of its host: sockets, clocks, files and its log. No clause says what a host gives.
#![tactic(auto)]

mod appended_file;
mod clock_wire;
mod commands_file;
mod followed_clock;
mod kernel_queue;
mod log;
mod progress;
mod socket;
mod system_wire;
mod udp_port;
mod whole_file;

pub use appended_file::{AppendedFile, FileState, HostFile};
pub use clock_wire::{ClockWire, HostClocks, SystemClockWire, moment_now};
pub use commands_file::{CommandsFault, CommandsFile, is_nearly_full, write_nearly_full};
pub use followed_clock::{ClockSource, FollowedClock};
pub use kernel_queue::{BoundAt, KernelDrops, KernelQueue, SOCKETS_ROOM};
pub use log::{Log, LogForm, Priority, has_standard_streams, pause};
pub use progress::MOST_COMMANDS_OCTETS;
pub use socket::{ServiceManager, inherited, receive_buffer, set_receive_buffer, set_send_buffer};
pub use system_wire::{QueuedWire, SystemWire, Wire};
pub use udp_port::UdpPort;
pub use whole_file::{
    emptied_file, not_regular, open_shared_file, read_regular_file, read_shared_file,
};
