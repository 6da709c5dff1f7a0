//! What holds of every time and moment of the code.
ghost use Rattle.std.specs.Prelude.{◌≡◌, Some};
ghost use Rattle.std.specs.Ordering.{is_lt};
ghost use Rattle.rules.specs.Fractions.{is_before, is_same};
ghost use Rattle.rules.specs.Stamps.{is_earlier};
ghost use Rattle.times.specs.Laws.{EqualFields, TimesUsual};
ghost use Rattle.times.specs.Of.{time_of, moment_of};

use crate::moment::Moment;
use crate::time::Time;

/// Equal values have equal fields, and every time is in least terms and within its bounds.
pub fn times_usual() -> u8
    ensures equal { EqualFields }
    ensures usual { TimesUsual }
{
    0
}

/// Times are ordered by their values, and moments by their times and then their sides, in tests too; times are equal where their numbers are.
pub fn order_stands() -> u8
    ensures tests { (s t : Time) → ⟦<Time as PartialOrd>⟧.partial_cmp s t ≡ Some (⟦<Time as Ord>⟧.cmp s t) }
    ensures side_tests { (m k : Moment) → ⟦<Moment as PartialOrd>⟧.partial_cmp m k ≡ Some (⟦<Moment as Ord>⟧.cmp m k) }
    ensures times { (s t : Time) → is_lt (⟦<Time as Ord>⟧.cmp s t) ≡ is_before (time_of s) (time_of t) }
    ensures moments { (m k : Moment) → is_lt (⟦<Moment as Ord>⟧.cmp m k) ≡ is_earlier (moment_of m) (moment_of k) }
    ensures same { (s t : Time) → ⟦<Time as PartialEq>⟧.eq s t ≡ is_same (time_of s) (time_of t) }
{
    0
}
