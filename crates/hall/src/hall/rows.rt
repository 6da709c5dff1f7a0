//! Rows of the table of refusals that several calls share.
ghost use Rattle.std.specs.Prelude.{◌≡◌, nat_lt};
ghost use Rattle.model.specs.Halls.{left};
ghost use Rattle.hall.specs.Of.{state_of};
ghost use Rattle.hall.specs.Told.{refused_by, row};

use crate::hall::Hall;
use books::FlightBook;
use queues::EventQueue;
use times::Refusal;

/// Refused where fewer than so many lines are lent.
pub(super) fn room_for(least: usize, lent: usize) -> Result<(), Refusal>
    ensures { refused_by result ≡ row 15 (nat_lt lent least) }
{
    if lent < least {
        return Err(Refusal::Room);
    }
    Ok(())
}

impl<B: FlightBook, Q: EventQueue> Hall<B, Q> {
    /// Refused where fewer than so many numbers are left.
    pub(super) fn numbers_for(&self, least: u32) -> Result<(), Refusal>
        ensures { refused_by result ≡ row 16 (nat_lt (left (state_of B.meaning Q.holds self.now).hall) least) }
    {
        if self.floor.left() < least {
            return Err(Refusal::Numbers);
        }
        Ok(())
    }
}
