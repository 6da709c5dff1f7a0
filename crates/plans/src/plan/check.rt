//! The rules of a plan.
ghost use Rattle.std.specs.Prelude.{◌≡◌, take};
ghost use Rattle.rules.specs.Paths.{on_every_axis};
ghost use Rattle.rules.specs.Plans.{within, legs_right, plan_right};
ghost use Rattle.plans.specs.Of.{place_of, speed_of, legs_of, plan_of};

use crate::plan::{Leg, Plan, Position, Speed};

impl Plan {
    /// Whether the plan keeps its rules: start coordinates within 1,000,000; 1 to 8 legs; start ticks that rise strictly,
    /// the last below the end tick; an end tick of at most 50,000; speeds within 1,000.
    pub fn keeps_rules(&self) -> bool
        ensures { result ≡ plan_right (plan_of self.now) }
    {
        start_right(self.start)
            && (1..=8).contains(&self.count)
            && legs_right(self.kept_legs(), self.end)
            && self.end <= 50000
    }

    /// The legs that the plan keeps.
    pub(crate) fn kept_legs(&self) -> &[Leg]
        ensures { result.now ≡ take self.now.count self.now.legs }
    {
        &self.legs[..usize::from(self.count).min(8)]
    }
}

/// Whether legs rise to the tick at which the last ends, with speeds in range.
fn legs_right(legs: &[Leg], end: u16) -> bool
    ensures { result ≡ legs_right (legs_of legs.now) end }
{
    let mut until = end;
    for leg in legs.iter().rev() {
        if leg.start >= until || !speed_right(leg.speed) {
            return false;
        }
        until = leg.start;
    }
    true
}

/// Whether every start coordinate is in range.
fn start_right(start: Position) -> bool
    ensures { result ≡ on_every_axis (λ a. within 1000000 (place_of start a)) }
{
    start.map(|x| (-1_000_000..=1_000_000).contains(&x)).all()
}

/// Whether every speed is in range.
fn speed_right(speed: Speed) -> bool
    ensures { result ≡ on_every_axis (λ a. within 1000 (speed_of speed a)) }
{
    speed.map(|v| (-1000..=1000).contains(&v)).all()
}
