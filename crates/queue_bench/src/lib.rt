//! Runs of the queues, to be timed from outside: each does one sequence of operations on a queue, and answers a number made of all that the queue told. A run that is done in the same way elsewhere must come to the same number.
#![tactic(auto)]

mod draw;
pub mod mixed;
mod run;
pub mod show;

pub use run::Run;
