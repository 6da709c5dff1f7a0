//! Half the sizes of a box.

mod make;

use crate::reach::Reach;
use fleet::Xyz;

/// How far a box reaches from its craft's position on each axis, down and up alike.
#[derive(Clone, Copy, PartialEq, Eq, Debug)]
pub struct HalfSizes {
    each: Xyz<Reach>,
}
