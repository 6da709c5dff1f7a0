//! The calendar as an event queue.
ghost use Rattle.calendar_queue.specs.Held.{holds_of};
ghost use Rattle.calendar_queue.specs.Bests.{kept_within, stored_usual};
ghost use Rattle.calendar_queue.specs.Links.{table};

use crate::calendar::CalendarQueue;
use queues::{Entry, EventQueue, Slot};
use times::{Moment, Refusal};

impl EventQueue for CalendarQueue {
    ghost holds = { holds_of };

    ghost within = { λ q k l. kept_within q.lists.moments q.lists.held k l };

    ghost usual = { λ q k m h. stored_usual (table q.lists.moments k) m h };

    fn put(&mut self, slot: u16, moment: Moment) -> Result<(), Refusal> {
        let slot = Slot::new(slot)?;
        self.replace(Entry { moment, slot });
        Ok(())
    }

    fn remove(&mut self, slot: u16) -> Result<(), Refusal> {
        let slot = Slot::new(slot)?;
        self.empty(slot);
        Ok(())
    }

    fn moment(&self, slot: u16) -> Result<Option<Moment>, Refusal> {
        let slot = Slot::new(slot)?;
        Ok(self.lists.moment(slot))
    }

    fn first(&self) -> Option<(u16, Moment)> {
        self.best().map(|best| (best.slot.number, best.moment))
    }

    fn is_empty(&self) -> bool {
        self.best().is_none()
    }
}
