//! Writing plans down.
ghost use Rattle.std.specs.Prelude.{◌≡◌};
ghost use Rattle.plans.specs.Of.{place_of, leg_of, plan_of, begun, pushed};

use crate::plan::{Leg, Plan, Position, Speed};

impl Plan {
    /// A plan with no leg yet.
    pub fn new(start: Position, end: u16) -> Plan
        ensures { plan_of result ≡ begun (place_of start) end }
    {
        let none = Leg {
            start: 0,
            speed: Speed { x: 0, y: 0, z: 0 },
        };
        Plan {
            start,
            legs: [none; 8],
            count: 0,
            end,
        }
    }

    /// Adds a leg after the others: it is counted, up to 255, and kept where there are fewer than eight.
    pub fn push_leg(&mut self, leg: Leg)
        ensures { plan_of self.new ≡ pushed (leg_of leg) (plan_of self.old) }
    {
        if self.count < 8 {
            self.legs[self.count as usize] = leg;
            self.count += 1;
        } else if self.count < 255 {
            self.count += 1;
        }
    }
}
