//! Questions, which change nothing.
ghost use Rattle.std.specs.Prelude.{length};
ghost use Rattle.times.specs.Of.{time_of};
ghost use Rattle.floor.specs.Of.{certificate_told};
ghost use Rattle.model.specs.Calls.{touching, touches, listing, asking, certificate};
ghost use Rattle.hall.specs.Of.{state_of};
ghost use Rattle.hall.specs.Told.{Performed, answer_told, done_told, count_told};
ghost use Rattle.hall.specs.ToldOn.{Listed};

use crate::hall::{Hall, Quiet};
use books::FlightBook;
use fleet::Craft;
use queues::{EventQueue, Slot};
use runs::list_pairs;
use times::{Moment, Refusal};

impl<B: FlightBook, Q: EventQueue> Hall<B, Q> {
    /// Whether the boxes of two entered craft touch at the clock's time.
    /// Refused, in this order: wrong clock, craft out of range, one craft named twice, a craft not entered.
    pub fn touching(&self, q: &Quiet, c: u8, d: u8) -> Result<bool, Refusal>
        ensures { Performed (touching (time_of q.now.at) c d) (state_of B.meaning Q.holds self.now) (state_of B.meaning Q.holds self.now) (answer_told touches result) }
    {
        self.knows(q)?;
        let (c, d) = (Craft::new(c)?, Craft::new(d)?);
        if c == d {
            return Err(Refusal::SameCraft);
        }
        if !(self.floor.is_entered(c) && self.floor.is_entered(d)) {
            return Err(Refusal::NotEntered);
        }
        Ok(self.floor.together(c, d))
    }

    /// Writes the touching pairs, each as lower number × 64 + higher number, ascending, at the list's start, and returns how many.
    /// Refused, in this order: wrong clock, list too short.
    pub fn list(&self, q: &Quiet, list: &mut [u16]) -> Result<usize, Refusal>
        ensures { Listed (listing (time_of q.now.at) (length list.old)) (state_of B.meaning Q.holds self.now) (done_told result) list.old list.new (count_told result) }
    {
        self.knows(q)?;
        list_pairs(&self.floor, list)
    }

    /// The certificate that stands in a slot: its number, and the moment at which it fails, or never; or none. Refused for a slot above the last.
    pub fn certificate(&self, slot: u16) -> Result<Option<(u32, Option<Moment>)>, Refusal>
        ensures { Performed (asking slot) (state_of B.meaning Q.holds self.now) (state_of B.meaning Q.holds self.now) (answer_told (λ o. certificate (certificate_told o)) result) }
    {
        Ok(self.floor.certificate(Slot::new(slot)?))
    }
}
