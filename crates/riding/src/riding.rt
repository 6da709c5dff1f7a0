//! The riding layer.
ghost use Rattle.std.specs.Prelude.{◌≡◌, ◌&&◌, None, ◌==◌, nat_le};
ghost use Rattle.rules.specs.Books.{layered};
ghost use Rattle.books.specs.Seats.{number_in};
ghost use Rattle.riding.specs.Layer.{added};
ghost use Rattle.riding.specs.Seats.{seats_of};
ghost use Rattle.riding.specs.Lawful.{layered_lawful};

use crate::seats::Seats;
use crate::sums::sum;
use books::FlightBook;
use fleet::Craft;
use plans::{LegAnswer, Plan};
use times::{Refusal, Time};

/// One level of seats on top of a book: the path of a craft is its path below, plus that of the carrier it has here.
/// Filings and lower rides go down, and the scale doubles. Over a scale above 4 the layer adds nothing, and its scale is 9.
#[derive(Drop)]
pub struct Riding<B: FlightBook> {
    below: B,
    seats: Seats,
}

impl<B: FlightBook> Riding<B> {
    /// The layer over a book, with no seat taken.
    pub fn over(below: B) -> Riding<B>
        ensures { layered (seats_of result.seats) (B.meaning result.below) ≡ layered (λ _. None) (B.meaning below) }
    {
        Riding {
            below,
            seats: Seats::new(),
        }
    }

    /// The carrier of a craft by the seat that this layer adds, if any.
    fn carrier(&self, craft: Craft) -> Option<Craft>
        ensures { number_in result ≡ added (seats_of self.now.seats) (B.meaning self.now.below) craft.number }
    {
        if self.below.scale() > 4 {
            return None;
        }
        self.seats.carrier(craft)
    }

    /// Whether a level is the one that this layer adds.
    fn is_top(&self, level: u8) -> bool
        ensures { result ≡ (nat_le (B.meaning self.now.below).scale 4 && level == (B.meaning self.now.below).levels) }
    {
        self.below.scale() <= 4 && level == self.below.levels()
    }
}

impl<B: FlightBook> FlightBook for Riding<B> {
    ghost meaning = { λ r. layered (seats_of r.seats) (B.meaning r.below) };

    ghost lawful = { λ r. layered_lawful (seats_of r.seats) (B.meaning r.below) (B.lawful r.below) };

    fn levels(&self) -> u8 {
        let levels = self.below.levels();
        if self.below.scale() <= 4 {
            levels + 1
        } else {
            levels
        }
    }

    fn scale(&self) -> u8 {
        let scale = self.below.scale();
        if scale <= 4 { 2 * scale } else { 9 }
    }

    fn leg_limit(&self) -> u8 {
        self.below.leg_limit()
    }

    fn leg(&self, craft: u8, t: Time) -> Result<LegAnswer, Refusal> {
        let own = self.below.leg(craft, t)?;
        let Some(carrier) = self.carrier(Craft { number: craft }) else {
            return Ok(own);
        };
        let carrier = self.below.leg(carrier.number, t)?;
        Ok(sum(own, carrier))
    }

    fn follows(&self, craft: u8, leader: u8) -> Result<bool, Refusal> {
        let own = self.below.follows(craft, leader)?;
        let Some(carrier) = self.carrier(Craft { number: craft }) else {
            return Ok(own);
        };
        let carrier = self.below.follows(carrier.number, leader)?;
        Ok(own || carrier)
    }

    fn file(&mut self, craft: u8, plan: Plan) -> Result<(), Refusal> {
        self.below.file(craft, plan)
    }

    fn ride(&mut self, craft: u8, level: u8, carrier: Option<u8>) -> Result<(), Refusal> {
        if self.is_top(level) {
            return self.seats.sit(craft, carrier);
        }
        self.below.ride(craft, level, carrier)
    }
}
