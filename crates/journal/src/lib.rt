//! The journal of slots: entries of sixteen bytes in blocks of 512.
#![tactic(auto)]

mod blocks;
mod entries;
mod fields;
mod layout;
mod sums;
mod text;

pub use blocks::{Heading, read, write};
pub use entries::{Access, Entry, Event, Outcome, UnknownOutcome};
pub use fields::Fields;
pub use layout::{
    BLOCK_BYTES, ENTRY_BYTES, FIXED_OPERATIONS, FOUR_BYTE_NUMBERS, GUESTS, HEADER_BYTES, PLACES,
    POSITIONS, REGISTERS, SLOTS, SUM_MODULUS, SUMS_START, TASKS, VALUES,
};
