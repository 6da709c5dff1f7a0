//! Flight plans, the paths that they give, and the leg question on a plan.
#![tactic(auto)]

pub mod answer;
pub mod laws;
pub mod lines;
pub mod plan;
pub mod route;

pub use answer::LegAnswer;
pub use plan::{Leg, Plan, Position, Speed};
pub use route::Route;
