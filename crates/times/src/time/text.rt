//! The text of times.
ghost use Rattle.std.specs.Prelude.{Some};
ghost use Rattle.times.specs.Of.{time_of};
ghost use Rattle.times.specs.Texts.{fraction_text};

use crate::time::Time;
use std::fmt;

/// `N` where the denominator is 1, else `N/D`.
impl fmt::Display for Time {
    ghost output = { λ t. Some (fraction_text (time_of t)) };

    fn fmt<W: fmt::Write>(&self, f: &mut fmt::Formatter<W>) -> fmt::Result {
        let (n, d) = (self.n, self.d);
        if d == 1 {
            return write!(f, "{n}");
        }
        write!(f, "{n}/{d}")
    }
}
