//! Flight books: the trait with its meaning and laws, and the books of plans.
#![tactic(auto)]

pub mod book;
pub mod laws;
pub mod plain;
mod routes;
pub mod seat;

pub use book::FlightBook;
pub use plain::PlanBook;
pub use seat::Seat;
