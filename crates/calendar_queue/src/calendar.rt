//! The calendar: buckets, and a tournament of their first entries.
ghost use Rattle.calendar_queue.specs.Calendars.{Agree};
ghost use Rattle.calendar_queue.specs.Bests.{agree_prop};

use crate::crown::Crown;
use crate::lists::Lists;

mod queue;
mod slots;

/// A queue of events in 128 buckets, by the remainder of the whole tick of a moment's time.
#[derive(Drop)]
pub struct CalendarQueue {
    lists: Lists,
    crown: Crown,
    ghost agree: { Agree lists.moments lists.next crown.nodes } by { agree_prop lists.moments lists.next crown.nodes },
}
