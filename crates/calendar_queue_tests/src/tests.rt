//! A year of the calendar has 128 ticks, one to a bucket.
use calendar_queue::CalendarQueue;
use heap_queue::HeapQueue;
use queues::{EventQueue, keep};
use std::process::Abort;
use std::test::Fail;
use times::{Moment, Time};

/// A time n / d and a side of it.
type When = (u32, u16, bool);

/// A slot, the moment that it gets or none, and the first slot after that.
type Step = (u16, Option<When>, u16);

// one bucket over several years, with fractions of one tick, and other buckets beside it
const YEARS: [Step; 12] = [
    (3, Some((130, 1, false)), 3),
    (4, Some((2, 1, true)), 4),
    (5, Some((49922, 1, false)), 4),
    (6, Some((129, 1, false)), 4),
    (4, None, 6),
    (6, None, 3),
    (7, Some((261, 2, false)), 3),
    (8, Some((131, 1, false)), 3),
    (3, None, 7),
    (8, Some((521, 4, true)), 8),
    (7, Some((50000, 1, true)), 8),
    (8, None, 5),
];

// equal moments of one bucket, and moves from bucket to bucket
const MOVES: [Step; 11] = [
    (9, Some((300, 1, false)), 9),
    (2, Some((300, 1, false)), 2),
    (5, Some((300, 1, false)), 2),
    (5, Some((300, 1, true)), 2),
    (2, Some((428, 1, false)), 9),
    (9, Some((45, 1, false)), 9),
    (9, Some((45, 1, true)), 9),
    (9, Some((173, 1, false)), 9),
    (5, Some((172, 1, false)), 5),
    (5, Some((429, 1, false)), 9),
    (9, None, 2),
];

/// The moment at a time n / d, or none where that is no time.
fn moment_of(n: u32, d: u16, after: bool) -> Option<Moment> {
    Time::new(n, d).ok().map(|time| Moment { time, after })
}

/// Takes the steps, and checks the first slot and the slot's moment after each.
fn walk(rt: &impl Abort, steps: &[Step]) -> Result<(), Fail> {
    let mut queue = CalendarQueue::new();
    for (slot, when, first) in steps.iter().copied() {
        let moment = when.and_then(|(n, d, after)| moment_of(n, d, after));
        keep(&mut queue, slot, moment)?;
        assert_eq!(rt; queue.moment(slot)?, moment);
        assert_eq!(rt; first_slot(&queue), Some(first));
        assert!(rt; !queue.is_empty());
    }
    Ok(())
}

/// The first slot, or none.
fn first_slot<Q: EventQueue>(queue: &Q) -> Option<u16> {
    queue.first().map(|(slot, _)| slot)
}

#[test]
fn years(rt: HostRuntime) -> Result<(), Fail> {
    walk(&rt, &YEARS)
}

#[test]
fn moves(rt: HostRuntime) -> Result<(), Fail> {
    walk(&rt, &MOVES)
}

#[test]
fn as_heap(rt: HostRuntime) -> Result<(), Fail> {
    let mut calendar = CalendarQueue::new();
    let mut heap = HeapQueue::new();
    let mut x = 12345u32;
    for _ in 0..20000u32 {
        x = x.wrapping_mul(1664525).wrapping_add(1013904223);
        let slot = (x >> 16) as u16 % 12352;
        let d = (x % 7) as u16;
        let moment = moment_of(x / 8 % 300000, d, x % 2 == 1);
        keep(&mut calendar, slot, moment)?;
        keep(&mut heap, slot, moment)?;
        assert_eq!(rt; first_slot(&calendar), first_slot(&heap));
    }
    Ok(())
}
