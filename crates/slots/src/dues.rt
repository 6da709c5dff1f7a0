//! Moments of breaks, and what is due.
ghost use Rattle.std.specs.Prelude.{◌≡◌, ◌≤◌, MatchOption};
ghost use Rattle.queues.specs.Meanings.{stored, first_told};
ghost use Rattle.times.specs.Of.{time_of};
ghost use Rattle.model.specs.Halls.{due_by};
ghost use Rattle.model.specs.Moves.{at_break};

use times::{Moment, Time};

/// The moment of a break, if there is one: side 0 of its tick.
pub fn break_moment(next: Option<u16>) -> Option<Moment>
    requires { MatchOption next (0 ≤ 0) (λ i. i ≤ 50000) }
    ensures { stored result ≡ at_break next }
{
    Time::at_tick(next?).ok().map(|time| Moment::at(time))
}

/// What is due: the first of a queue, where its moment is not after the goal itself.
pub fn not_after(goal: Time, first: Option<(u16, Moment)>) -> Option<(u16, Moment)>
    ensures { first_told result ≡ due_by (time_of goal) (first_told first) }
{
    first.filter(|f| !(Moment::at(goal) < f.1))
}
