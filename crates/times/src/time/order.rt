//! The order of times.
ghost use Rattle.std.specs.Prelude.{refl};
ghost use Rattle.std.specs.Ordering.{as_partial_cmp};
ghost use Rattle.times.specs.Orders.{time_cmp};
ghost use Rattle.times.specs.Ordered.{time_total, time_matches_eq, time_partial};

use crate::time::Time;
use std::cmp::Ordering;

/// Times are ordered by their values.
impl Ord for Time {
    ghost cmp = { time_cmp };

    ghost total = { time_total };

    ghost matches_partial_cmp = { λ s t. refl };

    ghost matches_eq = { time_matches_eq };

    fn cmp(&self, other: &Time) -> Ordering {
        let left = u64::from(self.n) * u64::from(other.d);
        let right = u64::from(other.n) * u64::from(self.d);
        left.cmp(&right)
    }
}

impl PartialOrd for Time {
    ghost partial_cmp = { as_partial_cmp time_cmp };

    ghost laws = { time_partial };

    fn partial_cmp(&self, other: &Time) -> Option<Ordering> {
        Some(self.cmp(other))
    }
}
