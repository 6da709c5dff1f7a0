//! Steps and runs of a due clock.
ghost use Rattle.std.specs.Prelude.{◌≡◌, length, IfOk, Some};
ghost use Rattle.times.specs.Of.{time_of, moment_of};
ghost use Rattle.model.specs.Halls.{next_due};
ghost use Rattle.model.specs.Calls.{stepping, running};
ghost use Rattle.model.specs.Refusals.{refusal};
ghost use Rattle.hall.specs.Of.{state_of};
ghost use Rattle.hall.specs.Told.{refused_by, Wrote};
ghost use Rattle.hall.specs.ToldOn.{step_told, step_count, Paged, run_told, run_lines, run_bytes, Back};

use crate::hall::rows::room_for;
use crate::hall::{Due, Hall};
use books::FlightBook;
use queues::{Entry, EventQueue};
use runs::{Ran, Stepped, run, step};
use slots::Slip;
use times::Refusal;

impl<B: FlightBook, Q: EventQueue> Hall<B, Q> {
    /// What is due first, or the first row of the table that fits.
    fn allows_step(&self, d: &Due, room: usize) -> Result<Entry, Refusal>
        ensures refused { refused_by result ≡ refusal (stepping (time_of d.now.at) (time_of d.now.goal) room) (state_of B.meaning Q.holds self.now) }
        ensures due { IfOk result (λ f. next_due (time_of d.now.goal) (state_of B.meaning Q.holds self.now).hall ≡ Some (f.slot.number, moment_of f.moment)) }
    {
        self.knows_due(d)?;
        let due = self.floor.due(d.goal).ok_or(Refusal::NothingDue)?;
        room_for(380, room)?;
        self.numbers_for(190)?;
        Ok(due)
    }

    /// Fires what is due first, and tells of it.
    /// Refused, in this order: wrong clock, nothing due, slip below 380 lines, fewer than 190 numbers left.
    pub fn step(&mut self, d: &Due, slip: &mut [u32]) -> Result<Stepped, Refusal>
        ensures { Wrote (stepping (time_of d.now.at) (time_of d.now.goal) (length slip.old)) (state_of B.meaning Q.holds self.old) (state_of B.meaning Q.holds self.new) (step_told result) slip.old slip.new (step_count result) }
    {
        let due = self.allows_step(d, slip.len())?;
        let mut slip = Slip::new(slip);
        Ok(step(&mut self.floor, due, &mut slip))
    }

    /// Steps until nothing is due by the goal, or room or numbers might not suffice for another step; refused for a wrong clock. The clock comes back.
    pub fn run(
        &mut self,
        d: Due,
        slip: &mut [u32],
        page: &mut [u8],
    ) -> Result<(Due, Ran), (Due, Refusal)>
        ensures performed { Paged (running (time_of d.at) (time_of d.goal) (length slip.old) (length page.old)) (state_of B.meaning Q.holds self.old) (state_of B.meaning Q.holds self.new) (run_told result) slip.old slip.new (run_lines result) page.old page.new (run_bytes result) }
        ensures back { Back d result }
    {
        // No plainer by `map_err`: its closure takes the clock, which is needed where there is no error.
        if let Err(e) = self.knows_due(&d) {
            return Err((d, e));
        }
        let ran = run(&mut self.floor, d.goal, slip, page);
        Ok((d, ran))
    }
}
