//! Reading and setting seats.
ghost use Rattle.std.specs.Prelude.{◌≡◌, ℕ, None};
ghost use Rattle.books.specs.Told.{refusal_told};
ghost use Rattle.books.specs.Seats.{number_in};
ghost use Rattle.riding.specs.Layer.{seat_refusal, sat};
ghost use Rattle.riding.specs.Seats.{seats_of};

use crate::seats::Seats;
use books::Seat;
use fleet::Craft;
use times::Refusal;

impl Seats {
    /// No craft has a seat.
    pub(crate) fn new() -> Seats
        ensures { (c : ℕ) → seats_of result c ≡ None }
    {
        Seats { table: [None; 64] }
    }

    /// The carrier that a craft rides on, if any.
    pub(crate) fn carrier(&self, craft: Craft) -> Option<Craft>
        ensures { number_in result ≡ seats_of self.now craft.number }
    {
        self.table[craft.place()]
    }

    /// Sets or empties a craft's seat.
    pub(crate) fn sit(&mut self, craft: u8, carrier: Option<u8>) -> Result<(), Refusal>
        ensures refusal { refusal_told result ≡ seat_refusal craft carrier }
        ensures after { seats_of self.new ≡ sat craft carrier (seats_of self.old) }
        ensures same { ¬ (refusal_told result ≡ None) → self.new ≡ self.old }
    {
        let seat = Seat::new(craft, carrier)?;
        self.table[seat.craft.place()] = seat.carrier;
        Ok(())
    }
}
