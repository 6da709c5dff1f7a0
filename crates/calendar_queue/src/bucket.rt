//! Buckets of moments.
ghost use Rattle.std.specs.Prelude.{◌≡◌, ◌+◌, ◌<◌};
ghost use Rattle.calendar_queue.specs.Entries.{bucket};

use queues::SLOTS;
use times::Moment;

/// How many buckets there are.
pub(crate) const BUCKETS: u16 = 128;

/// A bucket, by its number from 0 to 127.
#[derive(Clone, Copy)]
pub(crate) struct Bucket {
    pub(crate) number: u16,
    ghost inside: { number < 128 },
}

impl Bucket {
    /// The bucket of a moment: the remainder of its whole tick.
    #[tactic(auto, unfolding(crate::specs::Entries::bucket))]
    pub(crate) fn of(moment: Moment) -> Bucket
        ensures { result.number ≡ bucket moment }
    {
        Bucket {
            number: moment.time.whole() % BUCKETS,
        }
    }

    /// The bucket's start among the places of the lists: the starts follow the slots.
    pub(crate) fn start(self) -> usize
        ensures { result ≡ 12352 + self.number }
    {
        SLOTS + usize::from(self.number)
    }
}
