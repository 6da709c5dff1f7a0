//! The mixed run. After all slots have got a moment, each round is four operations: one slot is emptied, the first is asked for, the slot gets another moment, and so does a second slot.
use crate::draw::{mix, mix_entry};
use crate::run::Run;
use queues::EventQueue;

/// The run on a queue.
pub fn run<Q: EventQueue>(queue: &mut Q, run: Run) -> u64 {
    let mut draw = run.draw();
    let mut refused = false;
    for slot in 0..run.slots {
        refused |= queue.put(slot, draw.moment()).is_err();
    }
    let mut sum = 0;
    for _ in 0..run.rounds {
        let gone = draw.slot(run.slots);
        refused |= queue.remove(gone).is_err();
        sum = queue
            .first()
            .map_or(mix(sum, 0), |(slot, moment)| mix_entry(sum, slot, moment));
        refused |= queue.put(gone, draw.moment()).is_err();
        let other = draw.slot(run.slots);
        refused |= queue.put(other, draw.moment()).is_err();
    }
    mix(sum, u64::from(refused))
}

/// The run without a queue: what drawing slots and moments costs.
pub fn draws(run: Run) -> u64 {
    let mut draw = run.draw();
    let filled = (0..run.slots).fold(0, |sum, slot| mix_entry(sum, slot, draw.moment()));
    (0..2 * u64::from(run.rounds)).fold(filled, |sum, _| {
        mix_entry(sum, draw.slot(run.slots), draw.moment())
    })
}
