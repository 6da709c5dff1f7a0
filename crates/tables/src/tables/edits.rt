//! Changes of the tables.
ghost use Rattle.std.specs.Prelude.{◌≡◌, suc, ◌<◌, length};
ghost use Rattle.rules.specs.Basics.{put};
ghost use Rattle.plans.specs.Routes.{answer_of};
ghost use Rattle.slots.specs.Numbers.{number_in, number_told};
ghost use Rattle.tables.specs.Crafts.{record_in, records_in, turned};
ghost use Rattle.tables.specs.Tables.{empty, put_craft, put_bit, put_number};
ghost use Rattle.tables.specs.Of.{table};

use crate::craft::{CraftRecord, turn_place};
use crate::tables::Tables;
use fleet::Craft;
use plans::LegAnswer;
use queues::Slot;
use slots::{BitSlot, Number};

/// One craft's record takes new legs; every other stays.
// A function of its own on the slice: an element of an array in a struct gets no proof where it has ghost facts, as the borrow checker "made a plan that it cannot build".
fn turn_at(records: &mut [Option<CraftRecord>], c: Craft, legs: LegAnswer)
    requires { length records.old ≡ 64 }
    ensures length { length records.new ≡ 64 }
    ensures value { records_in records.new ≡ put (records_in records.old) c.number (turned (answer_of legs).0 (records_in records.old c.number)) }
{
    turn_place(&mut records[c.place()], legs);
}

impl Tables {
    /// Tables with no craft, no bit set and no number granted.
    pub fn new() -> Tables
        ensures { table result ≡ empty }
    {
        Tables {
            craft: [None; 64],
            bits: [false; 12288],
            numbers: [0; 12352],
            last: 0,
        }
    }

    /// Sets or empties the record of a craft; every other stays.
    pub fn set_craft(&mut self, c: Craft, craft: Option<CraftRecord>)
        ensures { table self.new ≡ put_craft c.number (record_in craft) (table self.old) }
    {
        self.craft[c.place()] = craft;
    }

    /// One craft's record takes new legs; every other stays.
    pub fn turn(&mut self, c: Craft, legs: LegAnswer)
        ensures { table self.new ≡ put_craft c.number (turned (answer_of legs).0 ((table self.old).craft c.number)) (table self.old) }
    {
        turn_at(&mut self.craft, c, legs);
    }

    /// Sets a slot's bit.
    pub fn set_bit(&mut self, slot: BitSlot, bit: bool)
        ensures { table self.new ≡ put_bit slot.number bit (table self.old) }
    {
        self.bits[slot.place()] = bit;
    }

    /// The next number, which now stands in a slot. It is public for the crate above, which sees that numbers are left.
    pub fn grant(&mut self, slot: Slot) -> Number
        requires { (table self.old).last < 20000000 }
        ensures number { result.value ≡ suc (table self.old).last }
        ensures stands { table self.new ≡ put_number slot.number (suc (table self.old).last) (suc (table self.old).last) (table self.old) }
    {
        let value = self.last + 1;
        self.last = value;
        self.numbers[slot.place()] = value;
        Number { value }
    }

    /// The number that stood in a slot, which then has none.
    pub fn clear(&mut self, slot: Slot) -> Option<Number>
        ensures number { number_told result ≡ number_in ((table self.old).number slot.number) }
        ensures gone { table self.new ≡ put_number slot.number 0 (table self.old).last (table self.old) }
    {
        let number = self.number(slot);
        self.numbers[slot.place()] = 0;
        number
    }
}
