//! The numbers of a time.
ghost use Rattle.std.specs.Prelude.{◌≡◌};
ghost use Rattle.times.specs.Of.{time_of};

use crate::time::Time;

impl Time {
    /// The numerator in least terms.
    pub fn numerator(self) -> u32
        ensures { result ≡ (time_of self).num }
    {
        self.n
    }

    /// The denominator in least terms.
    pub fn denominator(self) -> u16
        ensures { result ≡ (time_of self).den }
    {
        self.d
    }
}
