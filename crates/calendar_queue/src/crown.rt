//! The tournament of the buckets' first entries.
ghost use Rattle.std.specs.Prelude.{◌≡◌, length};
ghost use Rattle.calendar_queue.specs.Crowns.{Matched};
ghost use Rattle.calendar_queue.specs.Matches.{matched_prop};

use queues::Entry;

mod play;

/// The leaves 128 to 255 hold the first entries of the buckets 0 to 127; each node i from 1 to 127 holds the better of the nodes 2 i and 2 i + 1.
#[derive(Drop)]
pub(crate) struct Crown {
    nodes: [Option<Entry>; 256],
    ghost sized: { length nodes ≡ 256 },
    ghost matched: { Matched nodes } by { matched_prop nodes },
}
