//! Steps on the bit of two craft, and on a craft's bits along an axis.
ghost use Rattle.std.specs.Prelude.{ℕ, List, true};
ghost use Rattle.rules.specs.Paths.{Axis as FlightAxis};
ghost use Rattle.fleet.specs.Axes.{axis_of};
ghost use Rattle.times.specs.Of.{moment_of};
ghost use Rattle.model.specs.Halls.{others};
ghost use Rattle.model.specs.Moves.{each, enter_bit, drop_bit};
ghost use Rattle.floor_laws.specs.Writing.{Move, Grows, Leaves, withdraw, regrant};
ghost use Rattle.floor_laws.specs.Reading.{renews};
ghost use Rattle.floor_laws.proofs.Moving.{enter_bit_grows, enter_bit_leaves, drop_bit_grows, drop_bit_leaves, withdraw_one_grows, withdraw_leaves, grant_bit_grows, grant_bit_leaves};
ghost use Rattle.floor_laws.proofs.Loops.{grows_each, leaves_each};
ghost use Rattle.floor_laws.proofs.Legs.{renews_grows, renews_leaves};
ghost use Rattle.floor.specs.Of.{hall_of};
ghost use Rattle.floor.specs.Slips.{FitsIn, Moved};

use crate::floor::Floor;
use books::FlightBook;
use fleet::{Axis, Craft};
use geometry::overlaps;
use queues::EventQueue;
use slots::{BitSlot, Slip, Taken};
use times::Moment;

/// A step on the bit of two craft on an axis.
// The axis and the two craft stay three parameters, no plainer as one: a bit's slot tells the lower and the higher craft, and no more which of them is whose step.
// The moment and the slip stay two: leaving and withdrawing write on a slip and have no moment.
pub trait BitStep {
    /// The move that it makes.
    ghost moves: { Self → FlightAxis → ℕ → ℕ → Move };

    /// Makes the step.
    fn perform<B: FlightBook, Q: EventQueue>(
        &self,
        floor: &mut Floor<B, Q>,
        axis: Axis,
        c: Craft,
        d: Craft,
        slip: &mut Slip,
    )
        requires { FitsIn (moves self.now (axis_of axis) c.number d.number) (hall_of B.meaning Q.holds floor.old) slip.old }
        ensures { Moved (moves self.now (axis_of axis) c.number d.number) (hall_of B.meaning Q.holds floor.old) (hall_of B.meaning Q.holds floor.new) slip.old slip.new };

    ghost grows: { (s : Self) (a : FlightAxis) (c d : ℕ) → Grows (moves s a c d) };

    ghost leaves: { (s : Self) (a : FlightAxis) (c d : ℕ) → Leaves (moves s a c d) };
}

/// The bit is set as it is at the moment, and its certificate granted.
#[derive(Clone, Copy)]
pub struct EnterBit {
    pub moment: Moment,
}

/// The certificate is withdrawn, and the bit dropped.
#[derive(Clone, Copy)]
pub struct DropBit;

/// The certificate is withdrawn.
#[derive(Clone, Copy)]
pub struct WithdrawBit;

/// The certificate is granted, at the moment.
#[derive(Clone, Copy)]
pub struct GrantBit {
    pub moment: Moment,
}

impl BitStep for EnterBit {
    ghost moves = { λ s a c d. enter_bit a c (moment_of s.moment) d };

    ghost grows = { λ s a c d. enter_bit_grows a c (moment_of s.moment) d };

    ghost leaves = { λ s a c d. enter_bit_leaves a c (moment_of s.moment) d };

    fn perform<B: FlightBook, Q: EventQueue>(
        &self,
        floor: &mut Floor<B, Q>,
        axis: Axis,
        c: Craft,
        d: Craft,
        slip: &mut Slip,
    ) {
        let slot = BitSlot::of(axis, c, d);
        let bit = overlaps(
            floor.span(axis, slot.lower()),
            floor.span(axis, slot.higher()),
            self.moment,
        );
        floor.tables.set_bit(slot, bit);
        floor.grant_bit(axis, c, d, self.moment, slip);
    }
}

impl BitStep for DropBit {
    ghost moves = { λ s a c d. drop_bit a c d };

    ghost grows = { λ s a c d. drop_bit_grows a c d };

    ghost leaves = { λ s a c d. drop_bit_leaves a c d };

    fn perform<B: FlightBook, Q: EventQueue>(
        &self,
        floor: &mut Floor<B, Q>,
        axis: Axis,
        c: Craft,
        d: Craft,
        slip: &mut Slip,
    ) {
        WithdrawBit.perform(floor, axis, c, d, slip);
        floor.tables.set_bit(BitSlot::of(axis, c, d), false);
    }
}

impl BitStep for WithdrawBit {
    ghost moves = { λ s a c d. withdraw a c d };

    ghost grows = { λ s a c d. withdraw_one_grows a c d };

    ghost leaves = { λ s a c d. withdraw_leaves a c d };

    fn perform<B: FlightBook, Q: EventQueue>(
        &self,
        floor: &mut Floor<B, Q>,
        axis: Axis,
        c: Craft,
        d: Craft,
        slip: &mut Slip,
    ) {
        floor.take_away(Taken::Withdrawn, BitSlot::of(axis, c, d).into(), slip);
    }
}

impl BitStep for GrantBit {
    ghost moves = { λ s a c d. regrant a c (moment_of s.moment) d };

    ghost grows = { λ s a c d. grant_bit_grows a c (moment_of s.moment) d };

    ghost leaves = { λ s a c d. grant_bit_leaves a c (moment_of s.moment) d };

    fn perform<B: FlightBook, Q: EventQueue>(
        &self,
        floor: &mut Floor<B, Q>,
        axis: Axis,
        c: Craft,
        d: Craft,
        slip: &mut Slip,
    ) {
        floor.grant_bit(axis, c, d, self.moment, slip);
    }
}

/// A step on the bits of a craft with the other entered craft, on an axis.
pub trait AxisStep {
    /// The move that it makes for a craft on an axis, with the others listed.
    ghost moves: { Self → ℕ → FlightAxis → List ℕ → Move };

    /// Makes the step.
    fn perform<B: FlightBook, Q: EventQueue>(
        &self,
        floor: &mut Floor<B, Q>,
        axis: Axis,
        c: Craft,
        slip: &mut Slip,
    )
        requires { FitsIn (moves self.now c.number (axis_of axis) (others c.number (hall_of B.meaning Q.holds floor.old))) (hall_of B.meaning Q.holds floor.old) slip.old }
        ensures { Moved (moves self.now c.number (axis_of axis) (others c.number (hall_of B.meaning Q.holds floor.old))) (hall_of B.meaning Q.holds floor.old) (hall_of B.meaning Q.holds floor.new) slip.old slip.new };

    ghost grows: { (s : Self) (c : ℕ) (a : FlightAxis) (ds : List ℕ) → Grows (moves s c a ds) };

    ghost leaves: { (s : Self) (c : ℕ) (a : FlightAxis) (ds : List ℕ) → Leaves (moves s c a ds) };
}

/// A step on the bit with every other entered craft, ascending.
#[derive(Clone, Copy)]
pub struct WithOthers<S> {
    pub step: S,
}

/// All certificates of the bits are withdrawn, then granted anew at the moment.
#[derive(Clone, Copy)]
pub struct Renew {
    pub moment: Moment,
}

impl<S: BitStep> AxisStep for WithOthers<S> {
    ghost moves = { λ s c a ds. each (S.moves s.step a c) ds };

    ghost grows = { λ s c a ds. grows_each (S.moves s.step a c) (λ _. true) (S.grows s.step a c) ds };

    ghost leaves = { λ s c a ds. leaves_each (S.moves s.step a c) (S.leaves s.step a c) ds };

    fn perform<B: FlightBook, Q: EventQueue>(
        &self,
        floor: &mut Floor<B, Q>,
        axis: Axis,
        c: Craft,
        slip: &mut Slip,
    ) {
        // A rule of the project: the craft table is gone over by index, ascending.
        for d in 0..64u8 {
            floor.with_other(&self.step, axis, c, Craft { number: d }, slip);
        }
    }
}

impl AxisStep for Renew {
    ghost moves = { λ s c a ds. renews c (moment_of s.moment) a ds };

    ghost grows = { λ s c a ds. renews_grows c (moment_of s.moment) a ds };

    ghost leaves = { λ s c a ds. renews_leaves c (moment_of s.moment) a ds };

    fn perform<B: FlightBook, Q: EventQueue>(
        &self,
        floor: &mut Floor<B, Q>,
        axis: Axis,
        c: Craft,
        slip: &mut Slip,
    ) {
        WithOthers { step: WithdrawBit }.perform(floor, axis, c, slip);
        let granting = WithOthers {
            step: GrantBit {
                moment: self.moment,
            },
        };
        granting.perform(floor, axis, c, slip);
    }
}
