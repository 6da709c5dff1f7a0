//! Making routes.
ghost use Rattle.std.specs.Prelude.{◌≡◌};
ghost use Rattle.plans.specs.Of.{plan_of};
ghost use Rattle.plans.specs.Routes.{route_made, route_told};

use crate::plan::Plan;
use crate::route::Route;
use times::Refusal;

impl Route {
    /// The route of a plan; refused where the plan breaks its rules.
    pub fn new(plan: Plan) -> Result<Route, Refusal>
        ensures { route_told result ≡ route_made (plan_of plan) }
    {
        if !plan.keeps_rules() {
            return Err(Refusal::PlanRules);
        }
        Ok(Route { plan })
    }
}
