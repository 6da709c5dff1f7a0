//! The hall's floor: the book, the queue and the tables, and the moves of certificates on them, each with the lines that it writes.
//! Its functions are public for the hall above, which keeps room and numbers in range; craft and slots carry their ranges in their types.
#![tactic(auto)]

pub mod floor;

pub use floor::Floor;
