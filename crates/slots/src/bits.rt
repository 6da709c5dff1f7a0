//! The slots of bits.
ghost use Rattle.std.specs.Prelude.{◌≡◌, ◌<◌};
ghost use Rattle.fleet.specs.Axes.{axis_of};
ghost use Rattle.model.specs.Moves.{lower_of, higher_of, axis_of as slot_axis};

mod make;

use fleet::{Axis, Craft};

/// The slot of two craft's bit on an axis, by its number from 0 to 12,287.
#[derive(Clone, Copy, PartialEq, Eq, Debug)]
pub struct BitSlot {
    pub number: u16,
    ghost inside: { number < 12288 },
}

/// The axis of a bit's slot; of any other it does not matter.
pub fn axis_at(slot: u16) -> Axis
    ensures { axis_of result ≡ slot_axis slot }
{
    if slot < 4096 {
        Axis::X
    } else if slot < 8192 {
        Axis::Y
    } else {
        Axis::Z
    }
}

/// The lower craft of a bit's slot; of any other it does not matter.
pub fn lower_at(slot: u16) -> Craft
    ensures { result.number ≡ lower_of slot }
{
    Craft {
        number: (slot % 4096 / 64) as u8,
    }
}

/// The higher craft of a bit's slot; of any other it does not matter.
pub fn higher_at(slot: u16) -> Craft
    ensures { result.number ≡ higher_of slot }
{
    Craft {
        number: (slot % 64) as u8,
    }
}
