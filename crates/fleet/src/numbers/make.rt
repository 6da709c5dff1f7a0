//! Making craft from numbers, and numbers from craft.
ghost use Rattle.std.specs.Prelude.{◌≡◌, ◌<◌};
ghost use Rattle.fleet.specs.Numbers.{craft_told, craft_made};

use crate::numbers::Craft;
use times::Refusal;

impl Craft {
    /// The craft of a number; refused above 63.
    pub fn new(number: u8) -> Result<Craft, Refusal>
        ensures { craft_told result ≡ craft_made number }
    {
        if number >= 64 {
            return Err(Refusal::CraftRange);
        }
        Ok(Craft { number })
    }

    /// The craft's place in a table by craft.
    pub fn place(self) -> usize
        ensures value { result ≡ self.number }
        ensures below { result < 64 }
    {
        usize::from(self.number)
    }
}
