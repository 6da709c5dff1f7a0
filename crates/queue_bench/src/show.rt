//! The run of a show. After all slots have got a moment, each round asks for the first, and puts it again a little later.
use crate::draw::{Draw, mix, time};
use crate::run::Run;
use queues::EventQueue;
use times::Moment;

/// What each round of a show does beside: it asks for the first so many times more, and idles so many times.
#[derive(Clone, Copy, Drop)]
pub struct Beside {
    pub asks: u32,
    pub idles: u32,
}

impl Run {
    /// A number of sixteenths of a tick: the more slots, the more, so that time goes on as fast.
    fn sixteenths(self, draw: &mut Draw) -> u32 {
        draw.below(16 * u32::from(self.slots) / 25)
    }

    /// One of the eight slots after the filled ones.
    fn unfilled(self, turn: u32) -> u16 {
        self.slots.wrapping_add((turn % 8) as u16)
    }
}

/// A moment so many sixteenths of a tick later, on the same side.
fn later(moment: Moment, sixteenths: u32) -> Moment {
    let d = u32::from(moment.time.denominator());
    let rest = moment.time.numerator() % d;
    let n = 16 * u32::from(moment.time.whole()) + rest * 16 / d;
    Moment {
        time: time(n.wrapping_add(sixteenths), 16),
        after: moment.after,
    }
}

/// Idles so many times, and adds up what the queue told and what it is asked each time. To idle is to empty a slot that is empty, which changes nothing; but the compiler cannot know that.
fn idle<Q: EventQueue, F: Fn(&Q) -> u64>(queue: &mut Q, run: Run, times: u32, ask: F) -> u64
    requires { F.IsAlwaysCallable ask }
{
    let mut told: u64 = 0;
    for turn in 0..times {
        let refused = queue.remove(run.unfilled(turn)).is_err();
        told = told
            .wrapping_add(u64::from(refused))
            .wrapping_add(ask(queue));
    }
    told
}

/// Fills the first slots; answers whether one was refused.
fn fill<Q: EventQueue>(queue: &mut Q, draw: &mut Draw, run: Run) -> bool {
    let mut refused = false;
    for slot in 0..run.slots {
        let moment = Moment {
            time: time(run.sixteenths(draw), 16),
            after: draw.side(),
        };
        refused |= queue.put(slot, moment).is_err();
    }
    refused
}

/// The run on a queue.
pub fn run<Q: EventQueue>(queue: &mut Q, run: Run, beside: Beside) -> u64 {
    let mut draw = run.draw();
    let mut refused = fill(queue, &mut draw, run);
    let mut sum = 0;
    for _ in 0..run.rounds {
        sum = mix(
            sum,
            idle(queue, run, beside.asks, |q| {
                q.first().map_or(0, |(slot, moment)| {
                    u64::from(slot) + u64::from(moment.time.numerator())
                })
            }),
        );
        sum = mix(sum, idle(queue, run, beside.idles, |_| 0));
        if let Some((slot, moment)) = queue.first() {
            sum = mix(sum, u64::from(slot));
            let next = later(moment, run.sixteenths(&mut draw).wrapping_add(1));
            refused |= queue.put(slot, next).is_err();
        }
    }
    mix(sum, u64::from(refused))
}
