//! Steps and runs of a floor: what a firing tells of two craft, the steps that are due one after another, and the list of touching pairs.
#![tactic(auto)]

pub mod encounters;
pub mod ended;
pub mod listing;
pub mod running;
pub mod stepping;

pub use encounters::Certificate;
pub use ended::Ended;
pub use listing::{count_pairs, list_pairs};
pub use running::{Ran, run};
pub use stepping::{Stepped, step};
