//! Routes: plans that keep their rules.
ghost use Rattle.std.specs.Prelude.{◌≡◌, true};
ghost use Rattle.rules.specs.Plans.{plan_right};
ghost use Rattle.plans.specs.Of.{plan_of};

mod lines;
mod make;
mod next;

use crate::plan::Plan;

/// A plan that keeps its rules.
#[derive(Clone, Copy)]
pub struct Route {
    plan: Plan,
    ghost right: { plan_right (plan_of plan) ≡ true },
}
