//! Seats to be taken.
ghost use Rattle.std.specs.Prelude.{◌≡◌};
ghost use Rattle.books.specs.Seats.{seat_told, seat_made};

use fleet::Craft;
use times::Refusal;

/// A craft, and the other craft that is to carry it, or none.
#[derive(Clone, Copy)]
pub struct Seat {
    pub craft: Craft,
    pub carrier: Option<Craft>,
}

impl Seat {
    /// The seat of a craft by number. Refused, in this order: craft or carrier out of range, carrier is the craft.
    pub fn new(craft: u8, carrier: Option<u8>) -> Result<Seat, Refusal>
        ensures { seat_told result ≡ seat_made craft carrier }
    {
        let craft = Craft::new(craft)?;
        let carrier = carrier.map(Craft::new).transpose()?;
        if carrier == Some(craft) {
            return Err(Refusal::SameCraft);
        }
        Ok(Seat { craft, carrier })
    }
}
