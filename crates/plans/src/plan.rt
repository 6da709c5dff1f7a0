//! Flight plans.
ghost use Rattle.std.specs.Prelude.{◌≡◌, length};

mod check;
mod make;

use fleet::Xyz;

/// A position in centimetres.
pub type Position = Xyz<i32>;

/// A speed in centimetres a tick.
pub type Speed = Xyz<i16>;

/// A leg of a plan: the tick at which it starts, and its speed.
#[derive(Clone, Copy)]
pub struct Leg {
    pub start: u16,
    pub speed: Speed,
}

/// Where a craft stands at first, its legs, and the tick at which the last one ends.
/// Any plan can be written down, also one that breaks the rules: `count` may be 0 or above 8, and legs beyond the eighth are counted and not kept.
// A rule of the project needs the table with its count: a plan is copied and needs no heap, and an ArrayVec is not Copy and counts no more than it keeps.
#[derive(Clone, Copy)]
pub struct Plan {
    pub start: Position,
    pub legs: [Leg; 8],
    pub count: u8,
    pub end: u16,
    ghost table: { length legs ≡ 8 },
}
