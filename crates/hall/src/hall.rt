//! The hall and its clocks.
use books::FlightBook;
use floor::Floor;
use queues::EventQueue;
use times::Time;

mod changes;
mod clocks;
mod enters;
mod goals;
mod questions;
mod rows;
mod steps;

/// A hall: its floor, and its clock, which is quiet at a time, or due from a time to a goal.
#[derive(Drop)]
pub struct Hall<B: FlightBook, Q: EventQueue> {
    floor: Floor<B, Q>,
    time: Time,
    goal: Option<Time>,
}

/// A quiet clock: the hall is at its time, with nothing under way.
#[derive(Drop)]
pub struct Quiet {
    at: Time,
}

/// A due clock: the hall is on its way from a time to a goal.
#[derive(Drop)]
pub struct Due {
    at: Time,
    goal: Time,
}
