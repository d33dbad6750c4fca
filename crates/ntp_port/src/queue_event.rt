//! What can be seen of a queue.

/// What a call saw of a queue, or of the clock beside it; with a moment of that clock, in nanoseconds, which never goes
/// back.
#[derive(Clone, Copy, Debug, PartialEq, Eq)]
pub enum QueueEvent {
    /// The queue held at most `count` datagrams at some moment of a call that began at `at` or later.
    Held { count: u64, at: u64 },
    /// A call that began at this moment or later looked at the queue, and could not tell that it was empty.
    Looked(u64),
    /// A datagram was taken out of the queue by a call that began at this moment or later.
    Taken(u64),
    /// The clock showed this moment.
    Read(u64),
}
