//! What several test crates share: the parts of a server in memory, an allocator that refuses, a stream whose every call fails, and data.
//!
//! The data are one customer and the state of a clock, an exchange of the customer as lines of a script, and the packets of
//! three turns of a server. Nothing here was taken from what the program answered: packets and lines are written out from the
//! definitions of both. The digests in them are those of Python's `hashlib.md5` over the key `key` and the octets before the
//! key number. Calls without their clauses stand beside them: tests need no clauses.
#![tactic(auto)]

mod broken;
mod customer_and_clock;
mod exchange_lines;
mod memory_file;
mod memory_queue;
mod memory_server;
mod memory_wire;
mod packets;
mod plain_calls;
mod refusing;
mod turn_packets;

pub use broken::Broken;
pub use customer_and_clock::{CUSTOMER, enrolled_service, moment, reference};
pub use exchange_lines::{ANSWERS, SCRIPT, events, printed};
pub use memory_file::MemoryFile;
pub use memory_queue::MemoryQueue;
pub use memory_server::{MemoryCommands, MemoryObserver, MemoryStates};
pub use memory_wire::{Incoming, MemoryWire, Turn};
pub use packets::{PRIMARY, packet, query, reply, stamps};
pub use plain_calls::{answered, ordered, run};
pub use refusing::Refusing;
pub use turn_packets::{RECEIPTS, queries, replies, turn};
