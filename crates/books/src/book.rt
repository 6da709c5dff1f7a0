//! The trait of flight books.
ghost use Rattle.std.specs.Prelude.{◌≡◌, None};
ghost use Rattle.rules.specs.Books.{Book, Lawful, book_refusal, changed};
ghost use Rattle.times.specs.Of.{time_of};
ghost use Rattle.plans.specs.Of.{plan_of};
ghost use Rattle.books.specs.Told.{filing, seating, refusal_told, leg_told, leg_answer, follow_told, follow_answer};

use plans::{LegAnswer, Plan};
use times::{Refusal, Time};

/// A book of flights. It means, for each craft from 0 to 63, an own path; and for each level below its number of levels a seat,
/// which is another craft or none. Added up by these seats, the own paths give the paths.
pub trait FlightBook {
    /// What the book means.
    ghost meaning: { Self → Book };

    /// How many levels of seats there are.
    fn levels(&self) -> u8
        ensures { result ≡ (meaning self.now).levels };

    /// The scale: positions at ticks lie within 51,000,000 times it, slopes within 1,000 times it, bases within 101,000,000 times it.
    fn scale(&self) -> u8
        ensures { result ≡ (meaning self.now).scale };

    /// How many legs a filed plan may have.
    fn leg_limit(&self) -> u8
        ensures { result ≡ (meaning self.now).limit };

    /// The leg of a craft's path at a time, and the path's first break after it; refused where the craft is out of range.
    fn leg(&self, craft: u8, t: Time) -> Result<LegAnswer, Refusal>
        ensures { leg_told result ≡ leg_answer (meaning self.now) craft (time_of t) };

    /// Whether a craft follows a leader: whether its path hangs on the leader's plan and seats. Refused where either is out of range.
    fn follows(&self, craft: u8, leader: u8) -> Result<bool, Refusal>
        ensures { follow_told result ≡ follow_answer (meaning self.now) craft leader };

    /// Sets a craft's own path to that of a plan. Refused, in this order: craft out of range, plan breaks its rules, more legs than the limit.
    fn file(&mut self, craft: u8, plan: Plan) -> Result<(), Refusal>
        ensures refusal { refusal_told result ≡ book_refusal (filing craft (plan_of plan)) (meaning self.old) }
        ensures after { meaning self.new ≡ changed (filing craft (plan_of plan)) (meaning self.old) }
        ensures same { ¬ (refusal_told result ≡ None) → self.new ≡ self.old };

    /// Sets or empties a craft's seat at a level. Refused, in this order: craft or carrier out of range, carrier is the craft, level not below the levels.
    fn ride(&mut self, craft: u8, level: u8, carrier: Option<u8>) -> Result<(), Refusal>
        ensures refusal { refusal_told result ≡ book_refusal (seating craft level carrier) (meaning self.old) }
        ensures after { meaning self.new ≡ changed (seating craft level carrier) (meaning self.old) }
        ensures same { ¬ (refusal_told result ≡ None) → self.new ≡ self.old };

    /// The paths keep the rules at the book's scale, now and after any changes.
    ghost lawful: { (b : Self) → Lawful (meaning b) };
}
