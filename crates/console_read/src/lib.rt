//! The console's commands, read from a line.
#![tactic(auto)]

pub mod command;
pub mod gate;
pub mod keyword;
mod legs;
pub mod parsing;
mod shapes;

pub use command::{Book, Command, Filing, LegText, Queue};
pub use gate::{Clock, Stop, clock_needed, stopped};
pub use keyword::Keyword;
pub use parsing::{Unreadable, parse};
