//! The bits of two craft, and their certificates.
ghost use Rattle.std.specs.Prelude.{◌≡◌};
ghost use Rattle.fleet.specs.Axes.{axis_of};
ghost use Rattle.geometry.specs.Of.{span_of};
ghost use Rattle.times.specs.Of.{moment_of};
ghost use Rattle.model.specs.Moves.{ends_of, grant_bit};
ghost use Rattle.floor_laws.specs.Writing.{other, if_other};
ghost use Rattle.floor.specs.Of.{hall_of};
ghost use Rattle.floor.specs.Slips.{FitsIn, Moved};

use crate::floor::Floor;
use crate::floor::steps::BitStep;
use books::FlightBook;
use fleet::{Axis, Craft};
use geometry::{Span, first_wrong};
use queues::EventQueue;
use slots::{BitSlot, Slip};
use times::Moment;

impl<B: FlightBook, Q: EventQueue> Floor<B, Q> {
    /// A craft's box on an axis, on its present leg.
    pub(super) fn span(&self, axis: Axis, c: Craft) -> Span
        ensures { span_of result ≡ ends_of (axis_of axis) c.number (hall_of B.meaning Q.holds self.now) }
    {
        let record = self.tables.record(c);
        Span::new(record.leg(axis), record.sizes(), axis)
    }

    /// Grants the certificate of two craft's bit on an axis: it fails when the bit is wrong on their present legs.
    pub(super) fn grant_bit(&mut self, axis: Axis, c: Craft, d: Craft, k: Moment, slip: &mut Slip)
        requires { FitsIn (grant_bit (axis_of axis) c.number d.number (moment_of k)) (hall_of B.meaning Q.holds self.old) slip.old }
        ensures { Moved (grant_bit (axis_of axis) c.number d.number (moment_of k)) (hall_of B.meaning Q.holds self.old) (hall_of B.meaning Q.holds self.new) slip.old slip.new }
    {
        let slot = BitSlot::of(axis, c, d);
        let bit = self.tables.bit(slot);
        let (lower, higher) = (
            self.span(axis, slot.lower()),
            self.span(axis, slot.higher()),
        );
        let moment = first_wrong(bit, lower, higher, k);
        self.grant(slot.into(), moment, slip);
    }

    /// Whether d is entered and is not c.
    fn is_other(&self, c: Craft, d: Craft) -> bool
        ensures { result ≡ other c.number (hall_of B.meaning Q.holds self.now) d.number }
    {
        self.tables.is_entered(d) && d != c
    }

    /// A step on the bit of c with d, where d is another entered craft.
    pub(super) fn with_other<S: BitStep>(
        &mut self,
        step: &S,
        axis: Axis,
        c: Craft,
        d: Craft,
        slip: &mut Slip,
    )
        requires { FitsIn (if_other c.number (S.moves step.now (axis_of axis) c.number) d.number) (hall_of B.meaning Q.holds self.old) slip.old }
        ensures { Moved (if_other c.number (S.moves step.now (axis_of axis) c.number) d.number) (hall_of B.meaning Q.holds self.old) (hall_of B.meaning Q.holds self.new) slip.old slip.new }
    {
        if self.is_other(c, d) {
            step.perform(self, axis, c, d, slip);
        }
    }
}
