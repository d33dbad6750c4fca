//! Why octets are no request.

/// Why a datagram is no request. `at` is the place, counted in octets from 0, at which the part with
/// the fault begins. They are checked in this order: the two faults of its length; then, field by field,
/// the three of a field; then that of the rest (profile).
#[derive(Clone, Copy, Debug, PartialEq, Eq)]
pub enum Malformed {
    /// It has fewer than 48 octets.
    Short,
    /// It has more than 1,024 octets.
    Long,
    /// The field at `at` has a length below 16.
    FieldShort { at: u16 },
    /// The field at `at` has a length that is no multiple of 4.
    FieldUnaligned { at: u16 },
    /// The field at `at` has a length above what remains from there.
    FieldPastEnd { at: u16 },
    /// At most 24 octets remain from `at`, and not 0, 4, 20 or 24.
    Rest { at: u16 },
}
