//! Ports: where datagrams come from and replies go to. What a port tells of its turns; what a server does in a turn;
//! and what a server with commands asks of their source and of its clock's state.
//!
//! A port over a queue passes on no stale datagram: only one that can have waited for less than a given time. A datagram's receipt is
//! stamped when it is taken out of the queue of its socket, so a datagram that waited there would be answered with a receipt that is too
//! late. When it came nobody says; but a queue is first in, first out, so what is seen of it tells after which moment it came. One that may
//! have waited for longer is dropped and counted.
#![tactic(auto)]

mod fresh_port;
mod pacing;
mod port;
mod queue_event;
mod queue_watch;
mod queued_port;
mod sent;
mod serving;
mod sources;

pub use fresh_port::FreshPort;
pub use ntp_service::Arrival;
pub use pacing::EachMillisecond;
pub use port::{DatagramRoom, MOST_RECEIVED_OCTETS, Port, PortCounts, PortFault, TimedPort};
pub use queue_event::QueueEvent;
pub use queue_watch::QueueWatch;
pub use queued_port::QueuedPort;
pub use sent::Sent;
pub use serving::{Served, answer_received, serve};
pub use sources::{CommandsSource, FixedReference, ReferenceSource};
