//! Boxes on their legs: whether two overlap at a moment, and when a bit about that is first wrong.
#![tactic(auto)]

mod gap;
pub mod overlap;
pub mod reach;
pub mod sizes;
pub mod span;

pub use overlap::{first_wrong, overlaps};
pub use reach::Reach;
pub use sizes::HalfSizes;
pub use span::Span;
