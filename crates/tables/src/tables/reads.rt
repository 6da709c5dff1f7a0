//! What the tables tell.
ghost use Rattle.std.specs.Prelude.{◌≡◌, is_some};
ghost use Rattle.rules.specs.Basics.{the};
ghost use Rattle.model.specs.Moves.{nobody};
ghost use Rattle.slots.specs.Numbers.{number_in, number_told};
ghost use Rattle.tables.specs.Crafts.{record_of, record_in};
ghost use Rattle.tables.specs.Of.{table};

use crate::craft::CraftRecord;
use crate::tables::Tables;
use fleet::Craft;
use queues::Slot;
use slots::{BitSlot, Number};

impl Tables {
    /// The record of a craft, where it is entered.
    pub fn craft_at(&self, c: Craft) -> Option<CraftRecord>
        ensures { record_in result ≡ (table self.now).craft c.number }
    {
        self.craft[c.place()]
    }

    /// Whether a craft is entered.
    pub fn is_entered(&self, c: Craft) -> bool
        ensures { result ≡ is_some ((table self.now).craft c.number) }
    {
        self.craft_at(c).is_some()
    }

    /// The record of a craft; of one that is not entered it does not matter.
    pub fn record(&self, c: Craft) -> CraftRecord
        ensures { record_of result ≡ the nobody ((table self.now).craft c.number) }
    {
        self.craft_at(c).unwrap_or(CraftRecord::nobody())
    }

    /// The bit of a slot.
    pub fn bit(&self, slot: BitSlot) -> bool
        ensures { result ≡ (table self.now).bit slot.number }
    {
        self.bits[slot.place()]
    }

    /// The number of the certificate that stands in a slot, or none.
    pub fn number(&self, slot: Slot) -> Option<Number>
        ensures { number_told result ≡ number_in ((table self.now).number slot.number) }
    {
        match self.numbers[slot.place()] {
            0 => None,
            value => Some(Number { value }),
        }
    }

    /// The last number granted, or 0.
    pub fn last(&self) -> Number
        ensures { result.value ≡ (table self.now).last }
    {
        Number { value: self.last }
    }
}
