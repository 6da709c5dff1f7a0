//! Linking slots into their buckets, and taking them out.
ghost use Rattle.std.specs.Prelude.{◌≡◌, ℕ, ◌<◌, Some, None, slice_set};
ghost use Rattle.calendar_queue.specs.Links.{table};
ghost use Rattle.calendar_queue.specs.Heads.{head_of, OtherHeads};

use crate::lists::{Lists, NO_SLOT, PLACES};
use queues::{Entry, SLOTS};

impl Lists {
    /// Empty buckets.
    pub(crate) fn new() -> Lists
        ensures moments { (k : ℕ) → table result.moments k ≡ None }
        ensures heads { (b : ℕ) → b < 128 → head_of result.moments result.next b ≡ None }
    {
        Lists {
            moments: [None; SLOTS],
            next: [NO_SLOT; PLACES],
        }
    }

    /// Gives an empty slot its moment, and links it into its bucket.
    pub(crate) fn link(&mut self, entry: Entry)
        requires { table self.old.moments entry.slot.number ≡ None }
        ensures moments { self.new.moments ≡ slice_set self.old.moments entry.slot.number (Some entry.moment) }
        ensures others { OtherHeads self.old.moments self.old.next self.new.moments self.new.next entry.moment }
    {
        let place = self.seek(entry);
        let slot = entry.slot.place();
        self.next[slot] = self.next[place];
        self.next[place] = entry.slot.number;
        self.moments[slot] = Some(entry.moment);
    }

    /// Empties a slot that holds a moment, and takes it out of its bucket.
    pub(crate) fn unlink(&mut self, entry: Entry)
        requires { table self.old.moments entry.slot.number ≡ Some entry.moment }
        ensures moments { self.new.moments ≡ slice_set self.old.moments entry.slot.number None }
        ensures others { OtherHeads self.old.moments self.old.next self.new.moments self.new.next entry.moment }
    {
        let place = self.seek(entry);
        let slot = entry.slot.place();
        self.next[place] = self.next[slot];
        self.moments[slot] = None;
    }
}
