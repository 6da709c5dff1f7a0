//! A heap of entries with an index.
ghost use Rattle.std.specs.Prelude.{◌≡◌, ◌≤◌, length};

use queues::{Entry, SLOTS};

mod gaps;
mod places;

/// No place: the slot does not stand in the heap.
const NOWHERE: u16 = 65535;

/// The entries in the heap by place, the least first and each parent before its children; and each slot's place.
#[derive(Drop)]
pub(crate) struct Tree {
    heap: [Entry; SLOTS],
    pub(crate) len: u16,
    place: [u16; SLOTS],
    ghost long: { length heap ≡ 12352 },
    ghost size: { length place ≡ 12352 },
    ghost room: { len ≤ 12352 },
}

/// A gap in a heap: its place, and the entry in hand that is to fill a place.
#[derive(Clone, Copy)]
pub(crate) struct Gap {
    pub(crate) at: u16,
    pub(crate) hand: Entry,
}
