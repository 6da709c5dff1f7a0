//! The lines of numbers.
ghost use Rattle.std.specs.Prelude.{◌≡◌};
ghost use Rattle.model.specs.Moves.{granted};
ghost use Rattle.slots.specs.Lines.{line_of};

use crate::lines::Taken;
use crate::numbers::Number;

impl Number {
    /// The line of the number where it is granted.
    pub fn granted_line(self) -> u32
        ensures { result ≡ granted self.value }
    {
        self.value * 4 + 1
    }

    /// The line of the number where it is taken away: number × 4 + 2 fired, + 3 withdrawn.
    pub fn line(self, taken: Taken) -> u32
        ensures { result ≡ line_of taken self.value }
    {
        match taken {
            Taken::Fired => self.value * 4 + 2,
            Taken::Withdrawn => self.value * 4 + 3,
        }
    }
}
