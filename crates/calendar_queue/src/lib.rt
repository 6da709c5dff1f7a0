//! An event queue as a calendar: 128 buckets by the remainder of the whole tick.
#![tactic(auto)]

mod bucket;
pub mod calendar;
mod crown;
mod lists;

pub use calendar::CalendarQueue;
