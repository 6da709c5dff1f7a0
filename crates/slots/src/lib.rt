//! Slots, numbers, lines, slips and due moments: the small expressions of the hall that carry meaning.
#![tactic(auto)]

pub mod bits;
pub mod certified;
pub mod dues;
pub mod lines;
pub mod numbers;
pub mod slips;

pub use bits::{BitSlot, axis_at, higher_at, lower_at};
pub use certified::{Certified, leg_slot_of};
pub use dues::{break_moment, not_after};
pub use lines::Taken;
pub use numbers::Number;
pub use slips::Slip;
