//! The tables.
ghost use Rattle.std.specs.Prelude.{◌≡◌, ◌≤◌, length};
ghost use Rattle.tables.specs.Tables.{Granted};

use crate::craft::CraftRecord;

mod edits;
mod reads;

/// Records by craft, bits and numbers by slot.
#[derive(Drop)]
pub struct Tables {
    craft: [Option<CraftRecord>; 64],
    bits: [bool; 12288],
    // No plainer as options: they would take twice these 48 KiB, and `number` tells an option of each. 0 is no number.
    numbers: [u32; 12352],
    last: u32,
    ghost sizes: { (length craft ≡ 64) × (length bits ≡ 12288) × (length numbers ≡ 12352) },
    ghost few: { last ≤ 20000000 },
    ghost granted: { Granted numbers last },
}
