//! The queue's calls.
ghost use Rattle.std.specs.Prelude.{◌≡◌, ℕ, None};
ghost use Rattle.heap_queue.specs.Queues.{holds_of};
ghost use Rattle.heap_queue.specs.Holdings.{past_none, held_usual};

use crate::queue::HeapQueue;
use crate::tree::{Gap, Tree};
use queues::{Entry, EventQueue, Slot};
use times::{Moment, Refusal};

impl HeapQueue {
    /// A queue that holds nothing.
    pub fn new() -> HeapQueue
        ensures { (k : ℕ) → holds_of result k ≡ None }
    {
        HeapQueue { tree: Tree::new() }
    }
}

impl EventQueue for HeapQueue {
    ghost holds = { holds_of };

    ghost within = { λ q k h. past_none q.tree k h };

    ghost usual = { λ q k m e. held_usual q.tree k m e };

    fn put(&mut self, slot: u16, moment: Moment) -> Result<(), Refusal> {
        let slot = Slot::new(slot)?;
        let at = self.tree.seat(slot);
        self.tree.settle(Gap {
            at,
            hand: Entry { moment, slot },
        });
        Ok(())
    }

    fn remove(&mut self, slot: u16) -> Result<(), Refusal> {
        self.tree.withdraw(Slot::new(slot)?);
        Ok(())
    }

    #[tactic(auto, using(crate::specs::Holdings::place_inside))]
    fn moment(&self, slot: u16) -> Result<Option<Moment>, Refusal> {
        let slot = Slot::new(slot)?;
        let at = self.tree.place_of(slot);
        Ok(at.map(|at| self.tree.entry(at).moment))
    }

    #[tactic(auto, using(crate::specs::Holdings::first_is, crate::specs::Holdings::none_is))]
    fn first(&self) -> Option<(u16, Moment)> {
        if self.tree.len == 0 {
            return None;
        }
        let root = self.tree.entry(0);
        Some((root.slot.number, root.moment))
    }

    #[tactic(auto, using(crate::specs::Holdings::empty_is))]
    fn is_empty(&self) -> bool {
        self.tree.len == 0
    }
}
