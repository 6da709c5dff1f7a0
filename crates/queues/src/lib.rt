//! Event queues: what a queue means, which questions it answers, and what its first answer comes to.
#![tactic(auto)]

ghost use Rattle.std.specs.Prelude.{◌≡◌, ℕ, ◌≤◌, Some, None, Option};
ghost use Rattle.rules.specs.Fractions.{Usual};
ghost use Rattle.rules.specs.Stamps.{Stamp};
ghost use Rattle.times.specs.Of.{moment_of};
ghost use Rattle.queues.specs.Meanings.{changed, answered, stored, asked_told, first_told, soonest, is_nothing};
ghost use Rattle.queues.specs.Laws.{SoonestFirst, FirstsRight, EmptyRight};

use times::{Moment, Refusal};

pub mod entry;
pub mod laws;
pub mod slot;

pub use entry::Entry;
pub use slot::Slot;

/// How many slots a queue has: those of three times 64 times 64 bits' certificates, and of 64 leg certificates.
pub const SLOTS: usize = 12352;

/// A queue of events. It means this: for each slot 0 to 12,351 one moment or nothing, and above them nothing.
pub trait EventQueue {
    /// What the queue holds.
    ghost holds: { Self → ℕ → Option Stamp };

    /// Sets the moment of a slot, in the place of an old one; refused for a slot above the last.
    fn put(&mut self, slot: u16, moment: Moment) -> Result<(), Refusal>
        ensures answer { result ≡ answered slot tt }
        ensures meaning { holds self.new ≡ changed (holds self.old) slot (Some (moment_of moment)) }
        ensures refused { 12352 ≤ slot → self.new ≡ self.old };

    /// Empties a slot; refused for a slot above the last.
    fn remove(&mut self, slot: u16) -> Result<(), Refusal>
        ensures answer { result ≡ answered slot tt }
        ensures meaning { holds self.new ≡ changed (holds self.old) slot None }
        ensures refused { 12352 ≤ slot → self.new ≡ self.old };

    /// The moment of a slot, or none; refused for a slot above the last.
    fn moment(&self, slot: u16) -> Result<Option<Moment>, Refusal>
        ensures { asked_told result ≡ answered slot (holds self.now slot) };

    /// The slot with the least moment, the lowest slot among equals, with that moment; or none.
    fn first(&self) -> Option<(u16, Moment)>
        ensures { first_told result ≡ soonest (holds self.now) };

    /// Whether no slot holds a moment.
    fn is_empty(&self) -> bool
        ensures { result ≡ is_nothing (soonest (holds self.now)) };

    ghost within: { (q : Self) (k : ℕ) → 12352 ≤ k → holds q k ≡ None };

    ghost usual: { (q : Self) (k : ℕ) (m : Stamp) → holds q k ≡ Some m → Usual m.time };
}

/// Sets a slot's moment, or empties the slot where there is none to set.
pub fn keep<Q: EventQueue>(queue: &mut Q, slot: u16, moment: Option<Moment>) -> Result<(), Refusal>
    ensures answer { result ≡ answered slot tt }
    ensures meaning { Q.holds queue.new ≡ changed (Q.holds queue.old) slot (stored moment) }
    ensures refused { 12352 ≤ slot → queue.new ≡ queue.old }
{
    match moment {
        Some(m) => queue.put(slot, m),
        None => queue.remove(slot),
    }
}

/// The first answer is the slot with the least moment, the lowest slot among equals, and nothing else is; it is none just where the queue holds nothing.
pub fn firsts_stand() -> u8
    ensures scan { SoonestFirst }
    ensures firsts { FirstsRight }
    ensures empty { EmptyRight }
{
    0
}
