//! Setting the clock forward to a goal, and resting there.
ghost use Rattle.std.specs.Prelude.{◌≡◌, IfOk};
ghost use Rattle.rules.specs.Fractions.{least};
ghost use Rattle.times.specs.Of.{time_of};
ghost use Rattle.model.specs.Calls.{setting, resting};
ghost use Rattle.model.specs.Refusals.{refusal};
ghost use Rattle.hall.specs.Of.{state_of};
ghost use Rattle.hall.specs.Told.{refused_by, Performed, set_told, rest_told, BackIfRefused};

use crate::hall::{Due, Hall, Quiet};
use books::FlightBook;
use queues::EventQueue;
use times::{Refusal, Time};

impl<B: FlightBook, Q: EventQueue> Hall<B, Q> {
    /// The goal n / d that a quiet clock is set to, or the first row of the table that fits.
    fn allows_set(&self, q: &Quiet, n: u32, d: u16) -> Result<Time, Refusal>
        ensures refused { refused_by result ≡ refusal (setting (time_of q.now.at) n d) (state_of B.meaning Q.holds self.now) }
        ensures goal { IfOk result (λ t. time_of t ≡ least n d) }
    {
        self.knows(q)?;
        let goal = Time::new(n, d)?;
        if goal < q.at {
            return Err(Refusal::GoalPast);
        }
        Ok(goal)
    }

    /// Sets a quiet clock forward to the goal n / d, in least terms; refused, in this order: wrong clock, no time, before the clock.
    pub fn set(&mut self, q: Quiet, n: u32, d: u16) -> Result<Due, (Quiet, Refusal)>
        ensures performed { Performed (setting (time_of q.at) n d) (state_of B.meaning Q.holds self.old) (state_of B.meaning Q.holds self.new) (set_told result) }
        ensures back { BackIfRefused q result }
    {
        // No plainer by `map_err`: its closure takes the clock, which is needed where there is no error.
        let goal = match self.allows_set(&q, n, d) {
            Ok(goal) => goal,
            Err(e) => return Err((q, e)),
        };
        let Quiet { at } = q;
        self.goal = Some(goal);
        Ok(Due { at, goal })
    }

    /// Whether a due clock is spent, or the first row of the table that fits.
    fn allows_rest(&self, d: &Due) -> Result<(), Refusal>
        ensures { refused_by result ≡ refusal (resting (time_of d.now.at) (time_of d.now.goal)) (state_of B.meaning Q.holds self.now) }
    {
        self.knows_due(d)?;
        if self.floor.due(d.goal).is_some() {
            return Err(Refusal::SomethingDue);
        }
        Ok(())
    }

    /// Spends a due clock at its goal, where nothing more is due.
    pub fn rest(&mut self, d: Due) -> Result<Quiet, (Due, Refusal)>
        ensures performed { Performed (resting (time_of d.at) (time_of d.goal)) (state_of B.meaning Q.holds self.old) (state_of B.meaning Q.holds self.new) (rest_told result) }
        ensures back { BackIfRefused d result }
    {
        // No plainer by `map_err`, as in `set`.
        if let Err(e) = self.allows_rest(&d) {
            return Err((d, e));
        }
        let Due { at: _, goal } = d;
        self.time = goal;
        self.goal = None;
        Ok(Quiet { at: goal })
    }
}
