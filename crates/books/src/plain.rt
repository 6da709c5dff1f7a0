//! Books of plans with no levels: the single-leg book and the itinerary book.
ghost use Rattle.std.specs.Prelude.{◌≡◌};
ghost use Rattle.rules.specs.Books.{empty_book};
ghost use Rattle.books.specs.Plain.{plan_book_of};
ghost use Rattle.books.specs.Plains.{plain_lawful};

use crate::book::FlightBook;
use crate::routes::Routes;
use crate::seat::Seat;
use fleet::Craft;
use plans::{LegAnswer, Plan, Route};
use times::{Refusal, Time};

/// A book of 64 craft with no levels and scale 1: the single-leg book, or the itinerary book.
#[derive(Drop)]
pub struct PlanBook {
    routes: Routes,
    limit: u8,
}

impl PlanBook {
    /// The single-leg book: plans have one leg. Every craft stands.
    pub fn single_leg() -> PlanBook
        ensures { plan_book_of result ≡ empty_book 1 }
    {
        PlanBook {
            routes: Routes::new(),
            limit: 1,
        }
    }

    /// The itinerary book: plans have up to eight legs. Every craft stands.
    pub fn itinerary() -> PlanBook
        ensures { plan_book_of result ≡ empty_book 8 }
    {
        PlanBook {
            routes: Routes::new(),
            limit: 8,
        }
    }
}

impl FlightBook for PlanBook {
    ghost meaning = { plan_book_of };

    ghost lawful = { λ b. plain_lawful b.routes b.limit };

    fn levels(&self) -> u8 {
        0
    }

    fn scale(&self) -> u8 {
        1
    }

    fn leg_limit(&self) -> u8 {
        self.limit
    }

    fn leg(&self, craft: u8, t: Time) -> Result<LegAnswer, Refusal> {
        let craft = Craft::new(craft)?;
        Ok(self.routes.leg(craft, t))
    }

    fn follows(&self, craft: u8, leader: u8) -> Result<bool, Refusal> {
        let craft = Craft::new(craft)?;
        let leader = Craft::new(leader)?;
        Ok(craft == leader)
    }

    fn file(&mut self, craft: u8, plan: Plan) -> Result<(), Refusal> {
        let craft = Craft::new(craft)?;
        let route = Route::new(plan)?;
        if plan.count > self.limit {
            return Err(Refusal::LegLimit);
        }
        self.routes.set(craft, route);
        Ok(())
    }

    fn ride(&mut self, craft: u8, _level: u8, carrier: Option<u8>) -> Result<(), Refusal> {
        Seat::new(craft, carrier)?;
        Err(Refusal::LevelRange)
    }
}
