//! What the hall keeps of a craft.
ghost use Rattle.std.specs.Prelude.{◌≡◌};
ghost use Rattle.fleet.specs.Axes.{axis_of};
ghost use Rattle.geometry.specs.Of.{box_of};
ghost use Rattle.plans.specs.Lines.{line_of};
ghost use Rattle.plans.specs.Routes.{answer_of};
ghost use Rattle.tables.specs.Crafts.{record_of, record_in, with_legs, turned};
ghost use Rattle.model.specs.Moves.{nobody};

use fleet::{Axis, Xyz};
use geometry::HalfSizes;
use plans::LegAnswer;

/// An entered craft: its half sizes, and its present leg on each axis as (A, V).
#[derive(Clone, Copy)]
pub struct CraftRecord {
    half: HalfSizes,
    legs: Xyz<(i32, i32)>,
}

impl CraftRecord {
    /// The record of a craft with this box on the legs that a book told.
    pub fn new(half: HalfSizes, legs: LegAnswer) -> CraftRecord
        ensures { record_of result ≡ with_legs (box_of half) (answer_of legs).0 }
    {
        CraftRecord {
            half,
            legs: legs.lines,
        }
    }

    /// What stands for a craft that is not entered: the least box, standing at 0.
    pub fn nobody() -> CraftRecord
        ensures { record_of result ≡ nobody }
    {
        CraftRecord {
            half: HalfSizes::least(),
            legs: Xyz {
                x: (0, 0),
                y: (0, 0),
                z: (0, 0),
            },
        }
    }

    /// The half sizes.
    pub fn sizes(&self) -> HalfSizes
        ensures { box_of result ≡ (record_of self.now).box }
    {
        self.half
    }

    /// The present leg on an axis.
    pub fn leg(&self, axis: Axis) -> (i32, i32)
        ensures { line_of result ≡ (record_of self.now).leg (axis_of axis) }
    {
        self.legs.on(axis)
    }

    /// Takes the legs that a book told; the box stays.
    pub fn turn(&mut self, legs: LegAnswer)
        ensures { record_of self.new ≡ with_legs (record_of self.old).box (answer_of legs).0 }
    {
        self.legs = legs.lines;
    }
}

/// The craft of a place in the table takes the legs that a book told.
pub fn turn_place(place: &mut Option<CraftRecord>, legs: LegAnswer)
    ensures { record_in place.new ≡ turned (answer_of legs).0 (record_in place.old) }
{
    match place {
        Some(craft) => craft.turn(legs),
        None => *place = Some(CraftRecord::new(HalfSizes::least(), legs)),
    }
}
