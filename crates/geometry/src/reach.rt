//! How far a box reaches.
ghost use Rattle.std.specs.Prelude.{◌≤◌};

mod make;

/// How far a box reaches from its craft's position on one axis, down or up: from 1 to 1,000.
#[derive(Clone, Copy, PartialEq, Eq, Debug)]
pub struct Reach {
    pub half: u16,
    ghost some: { 1 ≤ half },
    ghost small: { half ≤ 1000 },
}
