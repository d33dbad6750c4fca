//! What a daemon works with.
use labntpd_files::Configuration;
use ntp_host::{BoundAt, HostClocks, LogForm, QueuedWire, ServiceManager, UdpPort};
use ntp_port::{EachMillisecond, FreshPort, QueuedPort};
use ntp_server::Server;
use std::alloc::Global;
use std::fs::Files;
use std::time::Clock;

/// A port of a daemon: its datagrams wait in a queue, and none of its replies waits for room in the send buffer.
pub trait DaemonPort: QueuedPort {
    /// How many replies were not sent since they would have waited for room, as far as the number can count.
    fn would_wait(&self) -> u64;
}

impl<W: QueuedWire + Drop> DaemonPort for UdpPort<W> {
    fn would_wait(&self) -> u64 {
        self.would_wait
    }
}

/// A server of a daemon: its port stands over `P` and its commands over `C`, its clock's state comes from `S`, and `O` hears what
/// it does.
pub type Daemon<P, C, S, O> = Server<FreshPort<P>, EachMillisecond<C>, S, O, Global>;

/// Where a daemon runs, and by which configuration: `rt` has its files and its clock.
#[derive(Drop)]
pub struct Host<'a, R: Files + Clock> {
    /// The files and the clock.
    pub rt: &'a R,
    /// Where memory is taken from.
    pub alloc: Global,
    /// What the parts share of the clocks.
    pub clocks: &'a HostClocks,
    /// The configuration.
    pub configuration: &'a Configuration,
}

/// What is known of a daemon when it begins to serve.
#[derive(Clone, Copy)]
pub struct StartupFacts {
    /// Its own address, and the receive buffer that the kernel gave.
    pub bound: BoundAt,
    /// The SHA-256 digest of its configuration file.
    pub digest: [u8; 32],
    /// How the lines of its log begin.
    pub form: LogForm,
    /// The service manager that hears of it, where there is one.
    pub manager: Option<ServiceManager>,
}

/// What a daemon is made of when it begins to serve.
#[derive(Drop)]
pub struct Parts<P: DaemonPort, C, S, O, L> {
    /// Where its datagrams come from.
    pub port: FreshPort<P>,
    /// Its commands, none carried out yet.
    pub commands: C,
    /// Where the state of the clock comes from.
    pub reference: S,
    /// Who hears what it does.
    pub observer: O,
    /// Where the other lines of its log are written.
    pub log: L,
}
