//! The plan that a filing writes down.
ghost use Rattle.std.specs.Prelude.{◌≡◌};
ghost use Rattle.plans.specs.Of.{leg_of, plan_of};
ghost use Rattle.rehearsal.specs.Filings.{typed_leg, typed_plan};

use console_read::{Filing, LegText};
use plans::{Leg, Plan};

/// A leg as it is typed.
// No plainer: a conversion by `From` has to stand in the crate of one of the two types, and neither is of this one.
fn leg(text: LegText) -> Leg
    ensures { leg_of result ≡ typed_leg text }
{
    Leg {
        start: text.start,
        speed: text.speed,
    }
}

/// The plan as it is typed: all its legs are counted, and the first eight kept.
pub fn plan(filing: &Filing) -> Plan
    ensures { plan_of result ≡ typed_plan filing.now }
{
    let mut plan = Plan::new(filing.at, filing.end);
    let legs = filing.legs();
    for text in legs {
        plan.push_leg(leg(*text));
    }
    plan
}
