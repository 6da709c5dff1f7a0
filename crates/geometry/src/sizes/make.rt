//! Making half sizes, and reading them.
ghost use Rattle.std.specs.Prelude.{◌≡◌};
ghost use Rattle.fleet.specs.Axes.{axis_of};
ghost use Rattle.geometry.specs.Of.{box_of, box_told, box_made, sizes};

use crate::reach::Reach;
use crate::sizes::HalfSizes;
use fleet::{Axis, Xyz};
use times::Refusal;

/// How far a box reaches on each axis, made its half sizes.
impl From<Xyz<Reach>> for HalfSizes {
    ghost from_gives = { λ each made. box_of made ≡ sizes each.x.half each.y.half each.z.half };

    fn from(each: Xyz<Reach>) -> HalfSizes {
        HalfSizes { each }
    }
}

impl HalfSizes {
    /// The least half sizes.
    pub fn least() -> HalfSizes
        ensures { box_of result ≡ sizes 1 1 1 }
    {
        let one = Reach { half: 1 };
        HalfSizes::from(Xyz {
            x: one,
            y: one,
            z: one,
        })
    }

    /// These half sizes; refused where one is not from 1 to 1,000.
    pub fn new(half: Xyz<u16>) -> Result<HalfSizes, Refusal>
        ensures { box_told result ≡ box_made half.x half.y half.z }
    {
        let x = Reach::new(half.x)?;
        let y = Reach::new(half.y)?;
        let z = Reach::new(half.z)?;
        Ok(HalfSizes {
            each: Xyz { x, y, z },
        })
    }

    /// How far the box reaches on an axis.
    pub fn reach(self, axis: Axis) -> Reach
        ensures { result.half ≡ (box_of self).half (axis_of axis) }
    {
        self.each.on(axis)
    }

    /// The half size on an axis.
    pub fn on(self, axis: Axis) -> u16
        ensures { result ≡ (box_of self).half (axis_of axis) }
    {
        self.reach(axis).half
    }
}
