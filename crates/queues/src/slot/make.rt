//! Making slots from numbers.
ghost use Rattle.std.specs.Prelude.{◌≡◌, ◌<◌};
ghost use Rattle.queues.specs.Meanings.{answered};
ghost use Rattle.queues.specs.Slots.{slot_told};

use crate::SLOTS;
use crate::slot::Slot;
use times::Refusal;

impl Slot {
    /// The slot of a number; refused above the last.
    pub fn new(number: u16) -> Result<Slot, Refusal>
        ensures { slot_told result ≡ answered number number }
    {
        if usize::from(number) >= SLOTS {
            return Err(Refusal::SlotRange);
        }
        Ok(Slot { number })
    }

    /// The slot's place in a table by slot.
    pub fn place(self) -> usize
        ensures value { result ≡ self.number }
        ensures below { result < 12352 }
    {
        usize::from(self.number)
    }
}
