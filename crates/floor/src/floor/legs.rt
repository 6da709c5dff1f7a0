//! Entering, leaving and firing.
ghost use Rattle.queues.specs.Meanings.{stored};
ghost use Rattle.geometry.specs.Of.{box_of};
ghost use Rattle.times.specs.Of.{moment_of};
ghost use Rattle.model.specs.Halls.{others};
ghost use Rattle.model.specs.Moves.{on_axes, enter, leave, fire, fire_bit, fire_leg};
ghost use Rattle.floor.specs.Of.{hall_of, read_then};
ghost use Rattle.floor.specs.Slips.{FitsIn, Moved};

use crate::floor::Floor;
use crate::floor::steps::{AxisStep, DropBit, EnterBit, Renew, WithOthers};
use books::FlightBook;
use fleet::{Axis, Craft};
use geometry::HalfSizes;
use queues::{Entry, EventQueue};
use slots::{BitSlot, Certified, Slip, Taken, break_moment, leg_slot_of};
use tables::CraftRecord;
use times::Moment;

impl<B: FlightBook, Q: EventQueue> Floor<B, Q> {
    /// A step on the bits of a craft with the other entered craft, on axes x, y and z in turn.
    fn on_axes<S: AxisStep>(&mut self, step: &S, c: Craft, slip: &mut Slip)
        requires { FitsIn (on_axes (λ a. S.moves step.now c.number a (others c.number (hall_of B.meaning Q.holds self.old)))) (hall_of B.meaning Q.holds self.old) slip.old }
        ensures { Moved (on_axes (λ a. S.moves step.now c.number a (others c.number (hall_of B.meaning Q.holds self.old)))) (hall_of B.meaning Q.holds self.old) (hall_of B.meaning Q.holds self.new) slip.old slip.new }
    {
        step.perform(self, Axis::X, c, slip);
        step.perform(self, Axis::Y, c, slip);
        step.perform(self, Axis::Z, c, slip);
    }

    /// What is granted once a craft's leg is read: the bits' certificates by the step, then the leg's, which fails at a break.
    fn read_then<S: AxisStep>(&mut self, step: &S, c: Craft, fails: Option<Moment>, slip: &mut Slip)
        requires { FitsIn (read_then (S.moves step.now c.number) c.number (stored fails)) (hall_of B.meaning Q.holds self.old) slip.old }
        ensures { Moved (read_then (S.moves step.now c.number) c.number (stored fails)) (hall_of B.meaning Q.holds self.old) (hall_of B.meaning Q.holds self.new) slip.old slip.new }
    {
        self.on_axes(step, c, slip);
        self.grant(leg_slot_of(c), fails, slip);
    }

    /// A craft enters with its box: its leg is read, its bits are set and all its certificates granted.
    pub fn enter(&mut self, c: Craft, half: HalfSizes, k: Moment, slip: &mut Slip)
        requires { FitsIn (enter c.number (box_of half) (moment_of k)) (hall_of B.meaning Q.holds self.old) slip.old }
        ensures { Moved (enter c.number (box_of half) (moment_of k)) (hall_of B.meaning Q.holds self.old) (hall_of B.meaning Q.holds self.new) slip.old slip.new }
    {
        let Ok(legs) = self.book.leg(c.number, k.time) else {
            return;
        };
        self.tables.set_craft(c, Some(CraftRecord::new(half, legs)));
        let step = WithOthers {
            step: EnterBit { moment: k },
        };
        self.read_then(&step, c, break_moment(legs.next), slip);
    }

    /// A craft leaves: its bits are dropped and all its certificates withdrawn.
    pub fn leave(&mut self, c: Craft, slip: &mut Slip)
        requires { FitsIn (leave c.number) (hall_of B.meaning Q.holds self.old) slip.old }
        ensures { Moved (leave c.number) (hall_of B.meaning Q.holds self.old) (hall_of B.meaning Q.holds self.new) slip.old slip.new }
    {
        self.on_axes(&WithOthers { step: DropBit }, c, slip);
        self.take_away(Taken::Withdrawn, leg_slot_of(c), slip);
        self.tables.set_craft(c, None);
    }

    /// A bit's certificate has fired: the bit changes, and its next certificate is granted.
    fn fire_bit(&mut self, slot: BitSlot, k: Moment, slip: &mut Slip)
        requires { FitsIn (fire_bit slot.number (moment_of k)) (hall_of B.meaning Q.holds self.old) slip.old }
        ensures { Moved (fire_bit slot.number (moment_of k)) (hall_of B.meaning Q.holds self.old) (hall_of B.meaning Q.holds self.new) slip.old slip.new }
    {
        let bit = self.tables.bit(slot);
        self.tables.set_bit(slot, !bit);
        self.grant_bit(slot.axis(), slot.lower(), slot.higher(), k, slip);
    }

    /// A leg certificate has fired: the craft's leg is read anew, and its certificates are granted anew.
    fn fire_leg(&mut self, c: Craft, k: Moment, slip: &mut Slip)
        requires { FitsIn (fire_leg c.number (moment_of k)) (hall_of B.meaning Q.holds self.old) slip.old }
        ensures { Moved (fire_leg c.number (moment_of k)) (hall_of B.meaning Q.holds self.old) (hall_of B.meaning Q.holds self.new) slip.old slip.new }
    {
        let Ok(legs) = self.book.leg(c.number, k.time) else {
            return;
        };
        self.tables.turn(c, legs);
        self.read_then(&Renew { moment: k }, c, break_moment(legs.next), slip);
    }

    /// Fires the certificate of a slot at its moment, which is then present.
    pub fn fire(&mut self, due: Entry, slip: &mut Slip)
        requires { FitsIn (fire due.slot.number (moment_of due.moment)) (hall_of B.meaning Q.holds self.old) slip.old }
        ensures { Moved (fire due.slot.number (moment_of due.moment)) (hall_of B.meaning Q.holds self.old) (hall_of B.meaning Q.holds self.new) slip.old slip.new }
    {
        self.take_away(Taken::Fired, due.slot, slip);
        match Certified::at(due.slot) {
            Certified::Bit(slot) => self.fire_bit(slot, due.moment, slip),
            Certified::Leg(c) => self.fire_leg(c, due.moment, slip),
        }
    }
}
