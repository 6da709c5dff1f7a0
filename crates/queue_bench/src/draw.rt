//! Drawing numbers, slots and moments; and the number that a run comes to.
ghost use Rattle.std.specs.Prelude.{◌≡◌, ◌<◌};

use times::{Moment, Time};

/// A generator of numbers that look random.
#[derive(Drop)]
pub struct Draw {
    state: u64,
}

impl Draw {
    /// The generator that begins from a number.
    pub fn new(from: u64) -> Draw {
        Draw { state: from }
    }

    // No plainer as an Iterator: the numbers never end, and each draw would have to say what it does without one.
    /// The next number, from 0 to 2^31 - 1.
    fn next(&mut self) -> u32 {
        self.state = self
            .state
            .wrapping_mul(6364136223846793005)
            .wrapping_add(1442695040888963407);
        (self.state >> 33) as u32
    }

    /// A number below a limit; 0 where the limit is 0.
    pub fn below(&mut self, limit: u32) -> u32
        ensures none { limit ≡ 0 → result ≡ 0 }
        ensures some { 0 < limit → result < limit }
    {
        self.next().checked_rem(limit).unwrap_or(0)
    }

    /// A slot among the first so many; 0 where they are none.
    pub fn slot(&mut self, slots: u16) -> u16 {
        self.below(u32::from(slots)) as u16
    }

    /// One of the two sides.
    pub fn side(&mut self) -> bool {
        self.below(2) == 1
    }

    /// A moment at up to 50,000 ticks, in parts of up to 1,000 to a tick.
    pub fn moment(&mut self) -> Moment {
        let d = 1 + self.below(1000);
        let time = time(self.below(50000 * d), d as u16);
        Moment {
            time,
            after: self.side(),
        }
    }
}

/// The time n / d, or 0 where it is none.
pub fn time(n: u32, d: u16) -> Time {
    Time::new(n, d).unwrap_or(Time::zero())
}

/// Takes a number into a sum.
pub fn mix(sum: u64, number: u64) -> u64 {
    sum.wrapping_mul(31).wrapping_add(number)
}

/// Takes a slot and its moment into a sum.
pub fn mix_entry(sum: u64, slot: u16, moment: Moment) -> u64 {
    let sides = u64::from(moment.time.denominator()) * 2 + u64::from(moment.after);
    [u64::from(slot), u64::from(moment.time.numerator()), sides]
        .iter()
        .fold(sum, |sum, number| mix(sum, *number))
}
