//! One customer: an address that was enrolled once, with its keys and its budget, the counts of its signed queries and of its
//! refusals, and its last exchanges.
//!
//! A budget and the limit on refusals count per window (profile): only the events at the newest end of a list that all lie in
//! one window, and no further than 65,536. So one window with one number is kept, however many events there were.
//!
//! An exchange is a time reply with the stamps of its receipt and of its departure (profile, after RFC 9769). The last few are
//! saved, so that a later reply can carry the stamp at which an earlier one really left. They lie in a ring, whose room is
//! taken once, when it is made.
#![tactic(auto)]

mod account;
mod customer;
mod laws;
mod new_stamps;
mod no_memory;
mod numbered_key;
mod saved_stamps;
mod slot;
mod slots;
mod window;

pub use customer::Customer;
pub use laws::{
    a_customer_has_a_past, a_tally_tells_all, at_most_one_has_a_receive_stamp,
    every_tally_is_of_a_list, recent_ones_suffice, saved_ones_stay_saved, saved_stamps_are_apart,
};
pub use no_memory::NoMemory;
pub use numbered_key::NumberedKey;
pub use slot::Slot;
pub use slots::Slots;
pub use window::Window;
