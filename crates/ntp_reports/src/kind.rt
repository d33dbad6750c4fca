//! What is counted.

/// What a turn or a line of commands is counted as.
#[derive(Clone, Copy, Debug, PartialEq, Eq)]
pub enum Kind {
    /// A time reply that tells its own departure.
    Basic,
    /// A time reply that tells the departure of an earlier one (RFC 9769, 2).
    Interleaved,
    /// The kiss `RATE`.
    Rate,
    /// The kiss `DENY`.
    Deny,
    /// A crypto-NAK.
    Nak,
    /// No reply, since the address was never enrolled.
    Unregistered,
    /// No reply, since the octets are fewer than a header's.
    Short,
    /// No reply, since the octets are too many.
    Long,
    /// No reply, since a field is too short.
    FieldShort,
    /// No reply, since the length of a field is no multiple of four.
    FieldUnaligned,
    /// No reply, since a field goes past the end.
    FieldPastEnd,
    /// No reply, since the octets behind the fields are no tail.
    Rest,
    /// No reply, since the version is neither 3 nor 4.
    Version,
    /// No reply, since the mode is not a client's.
    Mode,
    /// No reply, since the tail is a bare identifier.
    Bare,
    /// No reply, since refusals enough were sent in this window.
    Muted,
    /// No reply, since the budget of this window is spent.
    OverBudget,
    /// A turn in which no datagram could be received.
    NothingReceived,
    /// A reply that could not be sent.
    NotSent,
    /// A reply whose departure was noted.
    Noted,
    /// A line whose command was carried out.
    Done,
    /// A line refused, since its address is enrolled already.
    AlreadyEnrolled,
    /// A line refused, since its key number is held.
    KeyTaken,
    /// A line refused for want of memory.
    NoMemory,
    /// A line refused, since its address is not enrolled.
    NotEnrolled,
    /// A line refused, since the customer holds the key number already.
    SameNumber,
    /// A line refused, since the customer holds as many keys as it can.
    RoomFull,
    /// A line refused, since the key is the customer's only one.
    OnlyKey,
    /// A line refused, since the customer does not hold the key.
    NotHeld,
    /// A line that is no command.
    Faulty,
}

/// How many kinds there are.
pub(crate) const KINDS: usize = 30;
