//! The buckets: linked lists of slots in the order of their entries.
ghost use Rattle.std.specs.Prelude.{◌≡◌, length};
ghost use Rattle.calendar_queue.specs.Links.{Linked};
ghost use Rattle.calendar_queue.specs.Walks.{linked_prop};

use crate::bucket::BUCKETS;
use queues::SLOTS;
use times::Moment;

mod change;
mod seek;

/// The places are the slots 0 to 12,351, and then the starts of the 128 buckets.
const PLACES: usize = SLOTS + BUCKETS as usize;

/// What a place names where no slot comes next.
const NO_SLOT: u16 = 12480;

// No heap in the core: the lists are links between the places of a table.
// No plainer as one table of structs: a bucket's start has a next slot and no moment.
/// The moment of each slot or none, and for each place the number of the slot that comes next in its bucket, or a number above the slots where there is none.
#[derive(Drop)]
pub(crate) struct Lists {
    moments: [Option<Moment>; SLOTS],
    next: [u16; PLACES],
    ghost held: { length moments ≡ 12352 },
    ghost placed: { length next ≡ 12480 },
    ghost linked: { Linked moments next } by { linked_prop moments next },
}
