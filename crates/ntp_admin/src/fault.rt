//! What is wrong with a register file.

use ntp_service::LineFault;

/// The first thing that is wrong with a register file: with its text, with its top level, then with its
/// customers in file order, of each its form and then its values; where the reference state is asked for, with its
/// text and its top level, then with the reference.
#[derive(Clone, Copy, Debug, PartialEq, Eq)]
pub enum RegisterFault {
    /// The text is no TOML document.
    Toml,
    /// The top level, or a customer, has not the keys that it should have, or a value of another type at one of them.
    Shape,
    /// A value of the customer at `place`, counted from 0, has this fault.
    Entry { place: u64, fault: LineFault },
    /// The reference is not 46 hexadecimal digits, or no reference state has these fields.
    Reference,
    /// Memory ran out.
    NoMemory,
}
