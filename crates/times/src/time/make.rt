//! Making times, and reading them.
ghost use Rattle.std.specs.Prelude.{◌≡◌, ◌/◌};
ghost use Rattle.rules.specs.Fractions.{time_made, tick_made, tick, whole};
ghost use Rattle.times.specs.Of.{time_of, time_told};

use crate::refusal::Refusal;
use crate::time::Time;
use crate::time::gcd::gcd;

impl Time {
    /// The time 0.
    pub fn zero() -> Time
        ensures { time_of result ≡ tick 0 }
    {
        Time { n: 0, d: 1 }
    }

    /// The time n / d, brought to least terms; refused where d as given is 0 or above 16,000, or the value is above 50,000.
    pub fn new(n: u32, d: u16) -> Result<Time, Refusal>
        ensures { time_told result ≡ time_made n d }
    {
        if d == 0 || d > 16000 || u64::from(n) > 50000 * u64::from(d) {
            return Err(Refusal::GoalRange);
        }
        let g = gcd(n, u32::from(d));
        Ok(Time {
            n: n / g,
            d: (u32::from(d) / g) as u16,
        })
    }

    /// A whole tick as a time; refused above 50,000.
    pub fn at_tick(tick: u16) -> Result<Time, Refusal>
        ensures { time_told result ≡ tick_made tick }
    {
        if tick > 50000 {
            return Err(Refusal::GoalRange);
        }
        Ok(Time {
            n: u32::from(tick),
            d: 1,
        })
    }

    /// The whole part: the last tick that is not after the time.
    pub fn whole(self) -> u16
        ensures { result ≡ whole (time_of self) }
    {
        (self.n / u32::from(self.d)) as u16
    }
}
