//! Exact time: fractions of a tick in least terms, moments, and the numbers a refusal returns.
#![tactic(auto)]

pub mod laws;
pub mod moment;
pub mod refusal;
pub mod time;

pub use moment::Moment;
pub use refusal::Refusal;
pub use time::Time;
