//! One level of riding over any flight book.
#![tactic(auto)]

pub mod laws;
pub mod riding;
mod seats;
mod sums;

pub use riding::Riding;
