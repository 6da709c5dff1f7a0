//! The first break of a route after a time, and the leg question.
ghost use Rattle.std.specs.Prelude.{◌≡◌, map, nat_lt};
ghost use Rattle.std.specs.List.{find};
ghost use Rattle.times.specs.Of.{time_of};
ghost use Rattle.plans.specs.Lines.{first_past};
ghost use Rattle.plans.specs.Routes.{route_path, answer_of, leg_asked};

use crate::answer::LegAnswer;
use crate::plan::Leg;
use crate::route::Route;
use fleet::Xyz;
use times::Time;

impl Route {
    /// The leg at a time t. With i the whole part of t and p the positions at ticks, each axis has (A, V)
    /// with V = p(i + 1) - p(i) and A = p(i) - V × i; and the first break after t, if any.
    pub fn leg(&self, t: Time) -> LegAnswer
        ensures { answer_of result ≡ leg_asked (route_path self.now) (time_of t) }
    {
        let i = t.whole();
        LegAnswer {
            lines: Xyz::from_fn(|axis| self.line(axis, i)),
            next: self.next_break(i),
        }
    }

    /// The first break tick above tick i.
    fn next_break(&self, i: u16) -> Option<u16>
        ensures { result ≡ first_past i (route_path self.now).breaks }
    {
        let end = self.plan.end;
        first_start(self.plan.kept_legs(), i).or((i < end).then_some(end))
    }
}

/// The first start tick of legs above tick i.
fn first_start(legs: &[Leg], i: u16) -> Option<u16>
    ensures { result ≡ find (λ k. nat_lt i k) (map (λ l. l.start) legs.now) }
{
    legs.iter().map(|leg| leg.start).find(|start| i < *start)
}
