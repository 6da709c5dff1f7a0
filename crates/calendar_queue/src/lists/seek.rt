//! Finding the place of an entry in its bucket.
ghost use Rattle.std.specs.Prelude.{◌≡◌, ◌<◌};
ghost use Rattle.queues.specs.Entries.{comes_before};
ghost use Rattle.calendar_queue.specs.Links.{table, named, Sought};
ghost use Rattle.calendar_queue.specs.Heads.{entry_after, head_of, Steps};

use crate::bucket::Bucket;
use crate::lists::Lists;
use queues::{Entry, Slot};
use times::Moment;

/// Whether an entry comes before another. The times are looked at first, since on a walk most differ.
#[tactic(auto, unfolding(queues::specs::Entries::ahead))]
fn before(entry: Entry, wanted: Entry) -> bool
    ensures { result ≡ comes_before entry wanted }
{
    entry.moment.time < wanted.moment.time || entry < wanted
}

impl Lists {
    /// The moment of a slot, or none.
    pub(crate) fn moment(&self, slot: Slot) -> Option<Moment>
        ensures { result ≡ table self.now.moments slot.number }
    {
        self.moments[slot.place()]
    }

    /// The slot that a place names, or none.
    #[tactic(auto, using(crate::specs::Numbers::slot_made))]
    fn named(&self, place: usize) -> Option<Slot>
        requires { place < 12480 }
        ensures { result ≡ named self.now.next place }
    {
        Slot::new(self.next[place]).ok()
    }

    /// The entry that a place names, or none.
    #[tactic(auto, unfolding(crate::specs::Heads::entry_at))]
    fn after(&self, place: usize) -> Option<Entry>
        requires { place < 12480 }
        ensures { result ≡ entry_after self.now.moments self.now.next place }
    {
        let slot = self.named(place)?;
        let moment = self.moment(slot)?;
        Some(Entry { moment, slot })
    }

    /// The first entry of a bucket, or none.
    pub(crate) fn head(&self, bucket: Bucket) -> Option<Entry>
        ensures { result ≡ head_of self.now.moments self.now.next bucket.number }
    {
        self.after(bucket.start())
    }

    /// The slot that a place names, where it comes before an entry.
    #[tactic(auto, using(crate::specs::Changes::some_leads, crate::specs::Changes::entry_held))]
    fn step(&self, place: usize, wanted: Entry) -> Option<Slot>
        requires { place < 12480 }
        ensures { Steps self.now.moments self.now.next place wanted result }
    {
        let entry = self.after(place)?;
        if before(entry, wanted) {
            Some(entry.slot)
        } else {
            None
        }
    }

    /// The last place of an entry's bucket that comes before the entry.
    pub(super) fn seek(&self, wanted: Entry) -> usize
        ensures { Sought self.now.moments self.now.next wanted result }
    {
        // No plainer as an iterator: the place before the first slot is a bucket's start and no slot.
        let mut place = Bucket::of(wanted.moment).start();
        while let Some(slot) = self.step(place, wanted) {
            place = slot.place();
        }
        place
    }
}
