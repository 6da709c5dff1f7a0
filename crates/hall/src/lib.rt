//! The hall: a flight book, an event queue and a clock, and every call on them with its refusals.
#![tactic(auto)]

pub mod hall;

pub use hall::{Due, Hall, Quiet};
