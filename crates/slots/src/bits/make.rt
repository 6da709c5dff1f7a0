//! Making the slots of bits, and reading them.
ghost use Rattle.std.specs.Prelude.{◌≡◌, ◌<◌};
ghost use Rattle.rules.specs.Slots.{slot};
ghost use Rattle.fleet.specs.Axes.{axis_of};
ghost use Rattle.model.specs.Moves.{lower_of, higher_of, axis_of as slot_axis};

use crate::bits::{BitSlot, axis_at, higher_at, lower_at};
use fleet::{Axis, Craft};
use queues::Slot;

impl BitSlot {
    /// The slot of two craft's bit on an axis.
    pub fn of(axis: Axis, c: Craft, d: Craft) -> BitSlot
        ensures { result.number ≡ slot (axis_of axis) c.number d.number }
    {
        let base = match axis {
            Axis::X => 0,
            Axis::Y => 4096,
            Axis::Z => 8192,
        };
        let (lower, higher) = (c.number.min(d.number), c.number.max(d.number));
        BitSlot {
            number: base + 64 * u16::from(lower) + u16::from(higher),
        }
    }

    /// The axis of the bit.
    pub fn axis(self) -> Axis
        ensures { axis_of result ≡ slot_axis self.number }
    {
        axis_at(self.number)
    }

    /// The lower craft of the bit.
    pub fn lower(self) -> Craft
        ensures { result.number ≡ lower_of self.number }
    {
        lower_at(self.number)
    }

    /// The higher craft of the bit.
    pub fn higher(self) -> Craft
        ensures { result.number ≡ higher_of self.number }
    {
        higher_at(self.number)
    }

    /// The place of the bit in a table by slot.
    pub fn place(self) -> usize
        ensures value { result ≡ self.number }
        ensures below { result < 12288 }
    {
        usize::from(self.number)
    }
}

/// The slot, as one among those of legs too.
impl From<BitSlot> for Slot {
    ghost from_gives = { λ bit slot. slot.number ≡ bit.number };

    fn from(bit: BitSlot) -> Slot {
        Slot { number: bit.number }
    }
}
