//! Entering and leaving.
ghost use Rattle.std.specs.Prelude.{◌≡◌, length, IfOk};
ghost use Rattle.times.specs.Of.{time_of};
ghost use Rattle.geometry.specs.Of.{sizes, box_of};
ghost use Rattle.model.specs.Calls.{changing, entering, leaving};
ghost use Rattle.model.specs.Refusals.{refusal};
ghost use Rattle.hall.specs.Of.{state_of};
ghost use Rattle.hall.specs.Told.{refused_by, Wrote, done_told, count_told};

use crate::hall::rows::room_for;
use crate::hall::{Hall, Quiet};
use books::FlightBook;
use fleet::{Craft, Xyz};
use geometry::HalfSizes;
use queues::EventQueue;
use slots::Slip;
use times::{Moment, Refusal};

impl<B: FlightBook, Q: EventQueue> Hall<B, Q> {
    /// The craft that enters and its half sizes, or the first row of the table that fits.
    fn allows_enter(
        &self,
        q: &Quiet,
        craft: u8,
        half: (u16, u16, u16),
        room: usize,
    ) -> Result<(Craft, HalfSizes), Refusal>
        ensures refused { refused_by result ≡ refusal (changing (time_of q.now.at) (entering craft (sizes half.0 half.1 half.2)) room) (state_of B.meaning Q.holds self.now) }
        ensures entering { IfOk result (λ e. (e.0.number ≡ craft) × (box_of e.1 ≡ sizes half.0 half.1 half.2)) }
    {
        self.knows(q)?;
        let named = Craft::new(craft)?;
        if self.floor.is_entered(named) {
            return Err(Refusal::Entered);
        }
        let (x, y, z) = half;
        let sizes = HalfSizes::new(Xyz { x, y, z })?;
        room_for(190, room)?;
        self.numbers_for(190)?;
        Ok((named, sizes))
    }

    /// Enters a craft with its half sizes on the axes x, y and z, and returns how many lines were written.
    /// Refused, in this order: wrong clock, craft out of range, already entered, half size out of range, slip below 190 lines, fewer than 190 numbers left.
    pub fn enter(
        &mut self,
        q: &Quiet,
        craft: u8,
        half: (u16, u16, u16),
        slip: &mut [u32],
    ) -> Result<usize, Refusal>
        ensures { Wrote (changing (time_of q.now.at) (entering craft (sizes half.0 half.1 half.2)) (length slip.old)) (state_of B.meaning Q.holds self.old) (state_of B.meaning Q.holds self.new) (done_told result) slip.old slip.new (count_told result) }
    {
        let (craft, sizes) = self.allows_enter(q, craft, half, slip.len())?;
        let mut slip = Slip::new(slip);
        self.floor.enter(craft, sizes, Moment::at(q.at), &mut slip);
        Ok(slip.used)
    }

    /// The craft that leaves, or the first row of the table that fits.
    fn allows_leave(&self, q: &Quiet, craft: u8, room: usize) -> Result<Craft, Refusal>
        ensures refused { refused_by result ≡ refusal (changing (time_of q.now.at) (leaving craft) room) (state_of B.meaning Q.holds self.now) }
        ensures craft { IfOk result (λ c. c.number ≡ craft) }
    {
        self.knows(q)?;
        let named = Craft::new(craft)?;
        if !self.floor.is_entered(named) {
            return Err(Refusal::NotEntered);
        }
        room_for(190, room)?;
        Ok(named)
    }

    /// A craft leaves; returns how many lines were written.
    /// Refused, in this order: wrong clock, craft out of range, not entered, slip below 190 lines.
    pub fn leave(&mut self, q: &Quiet, craft: u8, slip: &mut [u32]) -> Result<usize, Refusal>
        ensures { Wrote (changing (time_of q.now.at) (leaving craft) (length slip.old)) (state_of B.meaning Q.holds self.old) (state_of B.meaning Q.holds self.new) (done_told result) slip.old slip.new (count_told result) }
    {
        let craft = self.allows_leave(q, craft, slip.len())?;
        let mut slip = Slip::new(slip);
        self.floor.leave(craft, &mut slip);
        Ok(slip.used)
    }
}
