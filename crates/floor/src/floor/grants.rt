//! Certificates granted and taken away, with their lines.
ghost use Rattle.queues.specs.Meanings.{stored};
ghost use Rattle.model.specs.Moves.{grant, take_away};
ghost use Rattle.slots.specs.Lines.{line_of};
ghost use Rattle.floor.specs.Of.{hall_of};
ghost use Rattle.floor.specs.Slips.{FitsIn, Moved};

use crate::floor::Floor;
use books::FlightBook;
use queues::{EventQueue, Slot, keep};
use slots::{Number, Slip, Taken};
use times::Moment;

impl<B: FlightBook, Q: EventQueue> Floor<B, Q> {
    /// Grants the next number to a slot, whose certificate fails at that moment, or never.
    pub(super) fn grant(&mut self, slot: Slot, moment: Option<Moment>, slip: &mut Slip)
        requires { FitsIn (grant slot.number (stored moment)) (hall_of B.meaning Q.holds self.old) slip.old }
        ensures { Moved (grant slot.number (stored moment)) (hall_of B.meaning Q.holds self.old) (hall_of B.meaning Q.holds self.new) slip.old slip.new }
    {
        let number = self.tables.grant(slot);
        let _ = keep(&mut self.queue, slot.number, moment);
        slip.write(number.granted_line());
    }

    /// Takes a slot's certificate away; where none stands, the line is that of number 0.
    pub(super) fn take_away(&mut self, taken: Taken, slot: Slot, slip: &mut Slip)
        requires { FitsIn (take_away (line_of taken) slot.number) (hall_of B.meaning Q.holds self.old) slip.old }
        ensures { Moved (take_away (line_of taken) slot.number) (hall_of B.meaning Q.holds self.old) (hall_of B.meaning Q.holds self.new) slip.old slip.new }
    {
        let number = self.tables.clear(slot).unwrap_or(Number { value: 0 });
        let _ = self.queue.remove(slot.number);
        slip.write(number.line(taken));
    }
}
