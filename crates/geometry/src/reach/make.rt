//! Making reaches.
ghost use Rattle.std.specs.Prelude.{◌≡◌};
ghost use Rattle.geometry.specs.Of.{reach_told, reach_made};

use crate::reach::Reach;
use times::Refusal;

impl Reach {
    /// The reach of half a size; refused where that is not from 1 to 1,000.
    pub fn new(half: u16) -> Result<Reach, Refusal>
        ensures { reach_told result ≡ reach_made half }
    {
        if !(1..=1000).contains(&half) {
            return Err(Refusal::HalfSize);
        }
        Ok(Reach { half })
    }
}
