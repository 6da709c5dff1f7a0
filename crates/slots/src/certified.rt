//! What the certificate of a slot is of.
ghost use Rattle.std.specs.Prelude.{◌≡◌};
ghost use Rattle.rules.specs.Slots.{leg_slot};
ghost use Rattle.slots.specs.Slots.{slot_of};

use crate::bits::BitSlot;
use fleet::Craft;
use queues::Slot;

/// What a slot's certificate is of: two craft's bit, or a craft's leg.
#[derive(Clone, Copy)]
pub enum Certified {
    Bit(BitSlot),
    Leg(Craft),
}

impl Certified {
    /// What the certificate of a slot is of.
    pub fn at(slot: Slot) -> Certified
        ensures { slot_of result ≡ slot.number }
    {
        let number = slot.number;
        if number < 12288 {
            return Certified::Bit(BitSlot { number });
        }
        Certified::Leg(Craft {
            number: (number - 12288) as u8,
        })
    }
}

/// The slot of a craft's leg certificate.
pub fn leg_slot_of(c: Craft) -> Slot
    ensures { result.number ≡ leg_slot c.number }
{
    Slot {
        number: 12288 + u16::from(c.number),
    }
}
