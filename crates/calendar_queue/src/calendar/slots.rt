//! Filling and emptying slots.
ghost use Rattle.std.specs.Prelude.{◌≡◌, ℕ, ◌+◌, ◌<◌, if◌then◌else◌, Some, None, nat_eq, slice_set};
ghost use Rattle.times.specs.Of.{moment_of};
ghost use Rattle.queues.specs.Meanings.{changed, soonest};
ghost use Rattle.calendar_queue.specs.Links.{table};
ghost use Rattle.calendar_queue.specs.Calendars.{told};
ghost use Rattle.calendar_queue.specs.Heads.{head_of};
ghost use Rattle.calendar_queue.specs.Crowns.{node};
ghost use Rattle.calendar_queue.specs.Held.{holds_of};

use crate::bucket::Bucket;
use crate::calendar::CalendarQueue;
use crate::crown::Crown;
use crate::lists::Lists;
use queues::{Entry, Slot};

/// Enters a bucket's first entry into the tournament.
fn refresh(lists: &Lists, crown: &mut Crown, bucket: Bucket)
    ensures { (b : ℕ) → b < 128 → node crown.new.nodes (128 + b) ≡ (if nat_eq b bucket.number then head_of lists.now.moments lists.now.next bucket.number else node crown.old.nodes (128 + b)) }
{
    let found = lists.head(bucket);
    crown.set(bucket, found);
}

impl CalendarQueue {
    /// An empty calendar.
    pub fn new() -> CalendarQueue
        ensures { (k : ℕ) → holds_of result k ≡ None }
    {
        CalendarQueue {
            lists: Lists::new(),
            crown: Crown::new(),
        }
    }

    /// Empties a slot.
    pub(super) fn empty(&mut self, slot: Slot)
        ensures moments { self.new.lists.moments ≡ slice_set self.old.lists.moments slot.number None }
        ensures meaning { holds_of self.new ≡ changed (holds_of self.old) slot.number None }
    {
        if let Some(moment) = self.lists.moment(slot) {
            self.lists.unlink(Entry { moment, slot });
            refresh(&self.lists, &mut self.crown, Bucket::of(moment));
        }
    }

    /// Fills an empty slot.
    fn fill(&mut self, entry: Entry)
        requires { table self.old.lists.moments entry.slot.number ≡ None }
        ensures { self.new.lists.moments ≡ slice_set self.old.lists.moments entry.slot.number (Some entry.moment) }
    {
        self.lists.link(entry);
        refresh(&self.lists, &mut self.crown, Bucket::of(entry.moment));
    }

    /// Sets a slot's moment, in the place of an old one.
    pub(super) fn replace(&mut self, entry: Entry)
        ensures { holds_of self.new ≡ changed (holds_of self.old) entry.slot.number (Some (moment_of entry.moment)) }
    {
        self.empty(entry.slot);
        self.fill(entry);
    }

    /// The entry that comes before all others, or none.
    pub(super) fn best(&self) -> Option<Entry>
        ensures { told result ≡ soonest (holds_of self.now) }
    {
        self.crown.top()
    }
}
