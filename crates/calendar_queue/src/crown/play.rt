//! Playing the matches of the tournament.
ghost use Rattle.std.specs.Prelude.{◌≡◌, ℕ, ◌+◌, ◌/◌, ◌<◌, ◌≤◌, length, if◌then◌else◌, Some, None, nat_eq};
ghost use Rattle.calendar_queue.specs.Crowns.{better as winner, node, Matched, MatchedBut};

use crate::bucket::Bucket;
use crate::crown::Crown;
use queues::Entry;

/// The better of two entries, of which either may be missing.
#[tactic(auto, unfolding(crate::specs::Crowns::better, queues::specs::Entries::ahead))]
fn better(left: Option<Entry>, right: Option<Entry>) -> Option<Entry>
    ensures { result ≡ winner left right }
{
    match (left, right) {
        (Some(l), Some(r)) => Some(l.min(r)),
        (None, r) => r,
        (l, None) => l,
    }
}

/// Plays again the matches above a leaf that was changed.
fn replay(nodes: &mut [Option<Entry>], leaf: usize)
    requires sized { length nodes.old ≡ 256 }
    requires low { 128 ≤ leaf }
    requires high { leaf < 256 }
    ensures leaves { (k : ℕ) → 128 ≤ k → node nodes.new k ≡ node nodes.old k }
    ensures matched { MatchedBut nodes.old (leaf / 2) → Matched nodes.new }
{
    // No plainer as an iterator: each turn writes the table that the next one reads.
    let mut at = leaf;
    while at > 1 {
        at /= 2;
        let best = better(nodes[2 * at], nodes[2 * at + 1]);
        nodes[at] = best;
    }
}

impl Crown {
    /// No entries.
    pub(crate) fn new() -> Crown
        ensures { (k : ℕ) → node result.nodes k ≡ None }
    {
        Crown { nodes: [None; 256] }
    }

    /// Sets a bucket's first entry.
    pub(crate) fn set(&mut self, bucket: Bucket, found: Option<Entry>)
        ensures { (b : ℕ) → b < 128 → node self.new.nodes (128 + b) ≡ (if nat_eq b bucket.number then found else node self.old.nodes (128 + b)) }
    {
        let leaf = 128 + usize::from(bucket.number);
        self.nodes[leaf] = found;
        replay(&mut self.nodes, leaf);
    }

    /// The best entry of all, or none.
    pub(crate) fn top(&self) -> Option<Entry>
        ensures { result ≡ node self.now.nodes 1 }
    {
        self.nodes[1]
    }
}
