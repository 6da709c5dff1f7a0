//! Opening a gap in the heap: a place for a slot, or the place that a slot leaves.
ghost use Rattle.std.specs.Prelude.{◌≡◌, None, MatchOption};
ghost use Rattle.rules.specs.Basics.{put};
ghost use Rattle.heap_queue.specs.Heaps.{held, Empty, Whole, Seated, Vacant};

use crate::tree::{Gap, NOWHERE, Tree};
use queues::{Entry, SLOTS, Slot};
use times::{Moment, Time};

impl Tree {
    /// A heap without entries.
    pub(crate) fn new() -> Tree
        ensures { Empty result }
    {
        let entry = Entry {
            moment: Moment::at(Time::zero()),
            slot: Slot { number: 0 },
        };
        Tree {
            heap: [entry; SLOTS],
            len: 0,
            place: [NOWHERE; SLOTS],
        }
    }

    /// Opens a gap for a slot: at its place, or behind the last place where it has none.
    #[tactic(auto, using(crate::proofs::Places::room))]
    pub(crate) fn seat(&mut self, slot: Slot) -> u16
        requires { Whole self.old }
        ensures { Seated self.old self.new slot.number result }
    {
        if let Some(at) = self.place_of(slot) {
            return at;
        }
        let end = self.len;
        self.len += 1;
        end
    }

    /// Takes a slot out. Where this leaves a gap, tells it, with the entry that stood last in hand.
    #[tactic(auto, using(crate::proofs::Places::inside))]
    fn vacate(&mut self, slot: Slot) -> Option<Gap>
        requires { Whole self.old }
        ensures held { held self.new ≡ put (held self.old) slot.number None }
        ensures left { MatchOption result (Whole self.new) (Vacant self.new) }
    {
        let at = self.place_of(slot)?;
        self.place[slot.place()] = NOWHERE;
        self.len -= 1;
        let end = self.len;
        if at == end {
            return None;
        }
        Some(Gap {
            at,
            hand: self.entry(end),
        })
    }

    /// Takes a slot out and closes the gap that this leaves.
    pub(crate) fn withdraw(&mut self, slot: Slot)
        requires { Whole self.old }
        ensures whole { Whole self.new }
        ensures held { held self.new ≡ put (held self.old) slot.number None }
    {
        if let Some(gap) = self.vacate(slot) {
            self.settle(gap);
        }
    }
}
