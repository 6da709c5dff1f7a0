//! What holds of entries.
ghost use Rattle.std.specs.Prelude.{◌≡◌, Some};
ghost use Rattle.std.specs.Ordering.{is_lt};
ghost use Rattle.queues.specs.Entries.{comes_before};

use crate::entry::Entry;

/// Entries are ordered by their moments, and those of equal moments by their slots, in tests too.
#[tactic(auto, unfolding(crate::specs::Entries::ahead))]
pub fn entries_stand() -> u8
    ensures tests { (a b : Entry) → ⟦<Entry as PartialOrd>⟧.partial_cmp a b ≡ Some (⟦<Entry as Ord>⟧.cmp a b) }
    ensures order { (a b : Entry) → is_lt (⟦<Entry as Ord>⟧.cmp a b) ≡ comes_before a b }
{
    0
}
