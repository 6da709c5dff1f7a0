//! Filling a gap in the heap: entries move down or up until the one in hand fits.
ghost use Rattle.std.specs.Prelude.{◌≡◌, ◌+◌, ◌*◌, ◌<◌, MatchOption};
ghost use Rattle.heap_queue.specs.Heaps.{entry_of, place_of, Gapped, Below, Above, ParentAfter, LeastChild, ChildBefore, Filled, Went, Settled};

use crate::tree::{Gap, NOWHERE, Tree};
use queues::{Entry, Slot};

impl Tree {
    /// The entry at a place.
    pub(crate) fn entry(&self, at: u16) -> Entry
        requires { at < 12352 }
        ensures { result ≡ entry_of self.now at }
    {
        self.heap[usize::from(at)]
    }

    /// The place of a slot, where it has one.
    pub(crate) fn place_of(&self, slot: Slot) -> Option<u16>
        ensures { result ≡ place_of self.now slot.number }
    {
        match self.place[slot.place()] {
            NOWHERE => None,
            at => Some(at),
        }
    }

    /// Puts an entry at a place, in the heap and in the index.
    fn fill(&mut self, at: u16, entry: Entry)
        requires { at < 12352 }
        ensures { Filled self.old self.new at entry }
    {
        self.heap[usize::from(at)] = entry;
        self.place[entry.slot.place()] = at;
    }

    /// The place above the gap, where the entry there comes after the one in hand.
    #[tactic(auto, using(queues::specs::EntryOrder::less))]
    fn parent_after(&self, gap: Gap) -> Option<u16>
        requires { Gapped self.now gap }
        ensures { MatchOption result (Below self.now gap) (ParentAfter self.now gap) }
    {
        if gap.at == 0 {
            return None;
        }
        let up = (gap.at - 1) / 2;
        (gap.hand < self.entry(up)).then_some(up)
    }

    /// Of the gap's children, of which there is one, the place of that which does not come after the other.
    #[tactic(auto, using(queues::specs::EntryOrder::less, crate::specs::Gaps::right_least))]
    fn least_child(&self, gap: u16) -> u16
        requires { 2 * gap + 1 < self.now.len }
        ensures { LeastChild self.now gap result }
    {
        let left = 2 * gap + 1;
        let right = left + 1;
        if right < self.len && self.entry(right) < self.entry(left) {
            right
        } else {
            left
        }
    }

    /// The place of the gap's least child, where it comes before the entry in hand.
    #[tactic(auto, using(queues::specs::EntryOrder::less, crate::specs::Gaps::above_least))]
    fn child_before(&self, gap: Gap) -> Option<u16>
        requires { Gapped self.now gap }
        ensures { MatchOption result (Above self.now gap) (ChildBefore self.now gap) }
    {
        if 2 * gap.at + 1 >= self.len {
            return None;
        }
        let child = self.least_child(gap.at);
        (self.entry(child) < gap.hand).then_some(child)
    }

    /// Moves parents down into the gap while they come after the entry in hand, and answers where the gap is then.
    fn rise(&mut self, from: Gap) -> Gap
        requires { Gapped self.old from }
        ensures went { Went self.old self.new from result }
        ensures below { Below self.new result }
    {
        // No plainer as one loop with `sink` over the place to go to: each keeps a fact of its own on the way.
        let mut gap = from;
        while let Some(up) = self.parent_after(gap) {
            self.fill(gap.at, self.entry(up));
            gap.at = up;
        }
        gap
    }

    /// Moves the least children up into the gap while they come before the entry in hand, and answers where the gap is then.
    fn sink(&mut self, from: Gap) -> Gap
        requires gapped { Gapped self.old from }
        requires below { Below self.old from }
        ensures went { Went self.old self.new from result }
        ensures below { Below self.new result }
        ensures above { Above self.new result }
    {
        let mut gap = from;
        while let Some(child) = self.child_before(gap) {
            self.fill(gap.at, self.entry(child));
            gap.at = child;
        }
        gap
    }

    /// Lets the entry in hand stand where it belongs, and moves others for it.
    pub(crate) fn settle(&mut self, gap: Gap)
        requires { Gapped self.old gap }
        ensures { Settled self.old self.new gap.hand }
    {
        let risen = self.rise(gap);
        let sunk = self.sink(risen);
        self.fill(sunk.at, sunk.hand);
    }
}
