//! The console's input as text: lines, words, numbers and times as they may be written.
#![tactic(auto)]

pub mod lines;
pub mod numbers;
pub mod text;
pub mod words;

pub use lines::Lines;
pub use numbers::{Numeral, TimeText};
pub use words::Words;
