//! Reading and setting routes.
ghost use Rattle.std.specs.Prelude.{◌≡◌, ℕ};
ghost use Rattle.rules.specs.Basics.{put};
ghost use Rattle.rules.specs.Paths.{Path, standing};
ghost use Rattle.times.specs.Of.{time_of};
ghost use Rattle.plans.specs.Routes.{route_path, answer_of, leg_asked};
ghost use Rattle.books.specs.Routes.{routes_of};

use crate::routes::Routes;
use fleet::Craft;
use plans::{LegAnswer, Route};
use times::Time;

impl Routes {
    /// No craft has a route.
    pub(crate) fn new() -> Routes
        ensures { (c : ℕ) → routes_of result c ≡ standing }
    {
        Routes { table: [None; 64] }
    }

    /// The leg of a craft at a time.
    pub(crate) fn leg(&self, craft: Craft, t: Time) -> LegAnswer
        ensures { answer_of result ≡ leg_asked (routes_of self.now craft.number) (time_of t) }
    {
        let own = &self.table[craft.place()];
        // The proof did not close with map_or_else on the table's place or on as_ref, nor with it or map_or in a function of its own.
        match own {
            None => LegAnswer::unplanned(),
            Some(route) => route.leg(t),
        }
    }

    /// Sets a craft's route.
    pub(crate) fn set(&mut self, craft: Craft, route: Route)
        ensures { routes_of self.new ≡ put (routes_of self.old) craft.number (route_path route) }
    {
        self.table[craft.place()] = Some(route);
    }
}
