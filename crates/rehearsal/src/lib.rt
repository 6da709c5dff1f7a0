//! The rehearsal console without its input and output: a script in, its answers out.
#![tactic(auto)]

pub mod cues;
pub mod desk;
pub mod filing;
pub mod reading;
pub mod script;
pub mod telling;

pub use cues::Cue;
pub use desk::Desk;
pub use script::rehearse;
