//! Moments: a time and a side of it.
ghost use Rattle.std.specs.Prelude.{◌≡◌};
ghost use Rattle.rules.specs.Stamps.{at, just_after};
ghost use Rattle.times.specs.Of.{time_of, moment_of};

use crate::time::Time;

/// A time and a side: the instant itself (side 0), or just after it (side 1).
#[derive(Clone, Copy, PartialEq, Eq, PartialOrd, Ord, Debug)]
pub struct Moment {
    pub time: Time,
    pub after: bool,
}

impl Moment {
    /// The instant itself: side 0.
    pub fn at(time: Time) -> Moment
        ensures { moment_of result ≡ at (time_of time) }
    {
        Moment { time, after: false }
    }

    /// Just after the instant: side 1.
    pub fn just_after(time: Time) -> Moment
        ensures { moment_of result ≡ just_after (time_of time) }
    {
        Moment { time, after: true }
    }
}
