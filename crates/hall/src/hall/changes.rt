//! Filing plans and taking seats.
ghost use Rattle.std.specs.Prelude.{◌≡◌, length, IfOk};
ghost use Rattle.times.specs.Of.{time_of};
ghost use Rattle.plans.specs.Of.{plan_of};
ghost use Rattle.model.specs.Calls.{changing, filing, riding};
ghost use Rattle.model.specs.Refusals.{refusal};
ghost use Rattle.hall.specs.Of.{state_of};
ghost use Rattle.hall.specs.Told.{refused_by, Wrote, done_told, count_told};

use crate::hall::rows::room_for;
use crate::hall::{Hall, Quiet};
use books::{FlightBook, Seat};
use fleet::Craft;
use plans::Plan;
use queues::EventQueue;
use slots::Slip;
use times::{Moment, Refusal};

impl<B: FlightBook, Q: EventQueue> Hall<B, Q> {
    /// The craft whose plan is filed, or the first row of the table that fits.
    fn allows_file(&self, q: &Quiet, craft: u8, plan: &Plan, room: usize) -> Result<Craft, Refusal>
        ensures refused { refused_by result ≡ refusal (changing (time_of q.now.at) (filing craft (plan_of plan.now)) room) (state_of B.meaning Q.holds self.now) }
        ensures craft { IfOk result (λ c. c.number ≡ craft) }
    {
        self.knows(q)?;
        let named = Craft::new(craft)?;
        if !plan.keeps_rules() {
            return Err(Refusal::PlanRules);
        }
        if plan.count > self.floor.leg_limit() {
            return Err(Refusal::LegLimit);
        }
        room_for(12224, room)?;
        self.numbers_for(6112)?;
        Ok(named)
    }

    /// Files a plan for a craft, and returns how many lines were written.
    /// Refused, in this order: wrong clock, craft out of range, plan breaks its rules, more legs than the limit, slip below 12,224 lines, fewer than 6,112 numbers left.
    pub fn file(
        &mut self,
        q: &Quiet,
        craft: u8,
        plan: Plan,
        slip: &mut [u32],
    ) -> Result<usize, Refusal>
        ensures { Wrote (changing (time_of q.now.at) (filing craft (plan_of plan)) (length slip.old)) (state_of B.meaning Q.holds self.old) (state_of B.meaning Q.holds self.new) (done_told result) slip.old slip.new (count_told result) }
    {
        let craft = self.allows_file(q, craft, &plan, slip.len())?;
        let mut slip = Slip::new(slip);
        self.floor.file(craft, plan, Moment::at(q.at), &mut slip);
        Ok(slip.used)
    }

    /// The craft whose seat is set, or the first row of the table that fits.
    fn allows_ride(
        &self,
        q: &Quiet,
        craft: u8,
        level: u8,
        carrier: Option<u8>,
        room: usize,
    ) -> Result<Craft, Refusal>
        ensures refused { refused_by result ≡ refusal (changing (time_of q.now.at) (riding craft level carrier) room) (state_of B.meaning Q.holds self.now) }
        ensures craft { IfOk result (λ c. c.number ≡ craft) }
    {
        self.knows(q)?;
        let seat = Seat::new(craft, carrier)?;
        if level >= self.floor.levels() {
            return Err(Refusal::LevelRange);
        }
        room_for(12224, room)?;
        self.numbers_for(6112)?;
        Ok(seat.craft)
    }

    /// Sets a craft's seat at a level to a carrier, or empties it, and returns how many lines were written.
    /// Refused, in this order: wrong clock, craft or carrier out of range, one craft named twice, level out of range, slip below 12,224 lines, fewer than 6,112 numbers left.
    pub fn ride(
        &mut self,
        q: &Quiet,
        craft: u8,
        level: u8,
        carrier: Option<u8>,
        slip: &mut [u32],
    ) -> Result<usize, Refusal>
        ensures { Wrote (changing (time_of q.now.at) (riding craft level carrier) (length slip.old)) (state_of B.meaning Q.holds self.old) (state_of B.meaning Q.holds self.new) (done_told result) slip.old slip.new (count_told result) }
    {
        let craft = self.allows_ride(q, craft, level, carrier, slip.len())?;
        let mut slip = Slip::new(slip);
        self.floor
            .ride(craft, level, carrier, Moment::at(q.at), &mut slip);
        Ok(slip.used)
    }
}
