//! What a box covers on one axis.

mod make;

use crate::reach::Reach;

/// A box on one axis: its position a + v·t, and how far it reaches below and above that.
#[derive(Clone, Copy, PartialEq, Eq, Debug)]
pub struct Span {
    pub(crate) a: i32,
    pub(crate) v: i32,
    // No plainer: one field for both, since a gap is read as one box's reach down and the other's reach up.
    pub(crate) down: Reach,
    pub(crate) up: Reach,
}
