//! Whose clock it is, and opening a hall.
ghost use Rattle.std.specs.Prelude.{◌≡◌};
ghost use Rattle.model.specs.Refusals.{not_mine};
ghost use Rattle.model.specs.Show.{SmallShow};
ghost use Rattle.model.specs.Statement.{Promise};
ghost use Rattle.hall.specs.Of.{quiet_of, due_of, state_of};
ghost use Rattle.hall.specs.Told.{refused_by, row, Opening};

use crate::hall::{Due, Hall, Quiet};
use books::FlightBook;
use floor::Floor;
use queues::EventQueue;
use times::{Refusal, Time};

impl<B: FlightBook, Q: EventQueue> Hall<B, Q> {
    /// Refused where a quiet clock is not the hall's.
    pub(super) fn knows(&self, q: &Quiet) -> Result<(), Refusal>
        ensures { refused_by result ≡ row 1 (not_mine (state_of B.meaning Q.holds self.now) (quiet_of q.now)) }
    {
        if self.goal.is_some() || q.at != self.time {
            return Err(Refusal::WrongClock);
        }
        Ok(())
    }

    /// Refused where a due clock is not the hall's.
    pub(super) fn knows_due(&self, d: &Due) -> Result<(), Refusal>
        ensures { refused_by result ≡ row 1 (not_mine (state_of B.meaning Q.holds self.now) (due_of d.now)) }
    {
        if self.goal != Some(d.goal) || d.at != self.time {
            return Err(Refusal::WrongClock);
        }
        Ok(())
    }

    /// Opens a hall over a book and an empty queue, at time 0; or hands both back. Refused, in this order: scale above 8, queue holds something.
    /// Its contract carries what the hall promises of every list of calls, which the contracts of the calls tie to this code, and a small show computed.
    pub fn open(book: B, queue: Q) -> Result<(Hall<B, Q>, Quiet), (B, Q, Refusal)>
        ensures opening { Opening B.meaning Q.holds book queue result }
        ensures promise { Promise }
        ensures show { SmallShow }
    {
        if book.scale() > 8 {
            return Err((book, queue, Refusal::Scale));
        }
        if !queue.is_empty() {
            return Err((book, queue, Refusal::QueueHolds));
        }
        let hall = Hall {
            floor: Floor::new(book, queue),
            time: Time::zero(),
            goal: None,
        };
        Ok((hall, Quiet { at: Time::zero() }))
    }
}
