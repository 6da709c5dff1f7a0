//! Each test runs over any queue.
use heap_queue::HeapQueue;
use queues::{EventQueue, keep};
use std::process::Abort;
use std::test::Fail;
use times::{Moment, Refusal, Time};

/// A slot; the time n / d and the side that it gets, or none where it is emptied; and the first slot after that, or none.
type Step = (u16, Option<(u32, u16, bool)>, Option<u16>);

// equal moments in other words, sides, and the lowest slot among equals
const EQUALS: [Step; 7] = [
    (9, Some((2, 3, true)), Some(9)),
    (12351, Some((4, 6, false)), Some(12351)),
    (7, Some((2, 3, false)), Some(7)),
    (8, Some((6, 9, false)), Some(7)),
    (0, Some((2, 3, true)), Some(7)),
    (7, Some((2, 3, true)), Some(8)),
    (8, None, Some(12351)),
];

// replacing by earlier and later moments
const REPLACED: [Step; 9] = [
    (0, Some((100, 1, false)), Some(0)),
    (1, Some((101, 1, false)), Some(0)),
    (2, Some((102, 1, false)), Some(0)),
    (3, Some((103, 1, false)), Some(0)),
    (3, Some((1, 2, false)), Some(3)),
    (3, Some((50000, 1, false)), Some(0)),
    (0, Some((203, 2, false)), Some(1)),
    (1, Some((101, 1, true)), Some(1)),
    (1, Some((203, 2, false)), Some(0)),
];

// removing an absent slot, the first, the last and all, and refilling
const REMOVED: [Step; 12] = [
    (5, None, None),
    (5, Some((9, 1, false)), Some(5)),
    (6, Some((8, 1, false)), Some(6)),
    (4, Some((7, 1, false)), Some(4)),
    (3, Some((6, 1, false)), Some(3)),
    (4000, None, Some(3)),
    (3, None, Some(4)),
    (5, None, Some(4)),
    (4, None, Some(6)),
    (6, None, None),
    (6, None, None),
    (12351, Some((1, 16000, true)), Some(12351)),
];

/// The moment n / d on a side of it.
fn moment_of(n: u32, d: u16, after: bool) -> Result<Moment, Refusal> {
    let time = Time::new(n, d)?;
    Ok(Moment { time, after })
}

/// Takes the steps, and checks the first slot, emptiness and the slot's moment after each.
fn walk<Q: EventQueue>(rt: &impl Abort, queue: &mut Q, steps: &[Step]) -> Result<(), Fail> {
    for &(slot, given, first) in steps {
        let moment = given
            .map(|(n, d, after)| moment_of(n, d, after))
            .transpose()?;
        keep(queue, slot, moment)?;
        assert_eq!(rt; queue.moment(slot)?, moment);
        assert_eq!(rt; queue.first().map(|(slot, _)| slot), first);
        assert_eq!(rt; queue.is_empty(), first.is_none());
    }
    Ok(())
}

/// A slot above the last is refused with 7.
fn refused<Q: EventQueue>(rt: &impl Abort, queue: &mut Q) {
    assert_eq!(rt; keep(queue, 12352, None), Err(Refusal::SlotRange));
    assert_eq!(rt;
        keep(queue, 65535, Some(Moment::at(Time::zero()))),
        Err(Refusal::SlotRange)
    );
    assert_eq!(rt; queue.moment(12352), Err(Refusal::SlotRange));
    assert_eq!(rt; u8::from(Refusal::SlotRange), 7);
}

/// Fills every slot, two to a moment.
fn fill<Q: EventQueue>(queue: &mut Q) -> Result<(), Fail> {
    for slot in 0..12352u16 {
        let turned = u32::from(slot) * 7919 % 12352;
        keep(queue, slot, Some(moment_of(turned / 2, 1, false)?))?;
    }
    Ok(())
}

/// Empties a full queue: the slots come by moment, and by slot among equals.
fn empty<Q: EventQueue>(rt: &impl Abort, queue: &mut Q) -> Result<(), Fail> {
    let mut last = None;
    for _ in 0..12352u16 {
        let (slot, moment) = queue.first().expect(rt, "a slot is left");
        assert_eq!(rt; queue.moment(slot)?, Some(moment));
        let next = Some((moment, slot));
        assert!(rt; last < next);
        last = next;
        queue.remove(slot)?;
    }
    assert!(rt; queue.is_empty());
    Ok(())
}

#[test]
fn heap_equals(rt: HostRuntime) -> Result<(), Fail> {
    walk(&rt, &mut HeapQueue::new(), &EQUALS)
}

#[test]
fn heap_replaced(rt: HostRuntime) -> Result<(), Fail> {
    walk(&rt, &mut HeapQueue::new(), &REPLACED)
}

#[test]
fn heap_removed(rt: HostRuntime) -> Result<(), Fail> {
    walk(&rt, &mut HeapQueue::new(), &REMOVED)
}

#[test]
fn heap_refused(rt: HostRuntime) {
    refused(&rt, &mut HeapQueue::new());
}

#[test]
fn heap_full(rt: HostRuntime) -> Result<(), Fail> {
    let mut queue = HeapQueue::new();
    fill(&mut queue)?;
    empty(&rt, &mut queue)?;
    fill(&mut queue)?;
    walk(
        &rt,
        &mut queue,
        &[
            (64, Some((0, 1, true)), Some(0)),
            (0, Some((50000, 1, true)), Some(9039)),
            (9039, None, Some(64)),
        ],
    )
}
