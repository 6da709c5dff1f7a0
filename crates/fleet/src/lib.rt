//! The craft of a fleet by number, and what lies on the three axes that they move on.
#![tactic(auto)]

pub mod axes;
pub mod numbers;

pub use axes::{Axis, Xyz};
pub use numbers::Craft;
