//! The floor.
use books::FlightBook;
use queues::EventQueue;
use tables::Tables;

mod bits;
mod changes;
mod grants;
mod legs;
mod questions;
mod steps;

/// What moves of certificates read and change: the flight book, the event queue and the tables.
#[derive(Drop)]
pub struct Floor<B: FlightBook, Q: EventQueue> {
    book: B,
    queue: Q,
    tables: Tables,
}
