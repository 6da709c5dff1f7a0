//! Every refusal at its bound, and the first that fits.
use crate::desk::{from_100, number, opened, rest, set, there_and_back};
use books::{FlightBook, PlanBook};
use hall::Hall;
use heap_queue::HeapQueue;
use queues::EventQueue;
use riding::Riding;
use std::process::Abort;
use std::test::Fail;
use times::{Moment, Time};

/// A queue that holds one moment.
fn holding() -> HeapQueue {
    let mut queue = HeapQueue::new();
    let _ = queue.put(3, Moment::at(Time::zero()));
    queue
}

/// The refusal of an opening, or 0.
fn refused<B: FlightBook + Drop>(book: B, queue: HeapQueue) -> u8 {
    number(Hall::open(book, queue).map_err(|back| back.2))
}

#[test]
fn opening(rt: HostRuntime) {
    let three = Riding::over(Riding::over(Riding::over(PlanBook::single_leg())));
    assert_eq!(rt; refused(three, HeapQueue::new()), 0);
    let four = Riding::over(Riding::over(Riding::over(Riding::over(PlanBook::single_leg()))));
    assert_eq!(rt; refused(four, holding()), 17);
    assert_eq!(rt; refused(PlanBook::itinerary(), holding()), 18);
}

/// Whether nothing was written.
fn untouched(rt: &impl Abort, slip: &[u32]) {
    for line in slip {
        assert_eq!(rt; *line, 0);
    }
}

fn entering(rt: &impl Abort, slip: &mut [u32], short: &mut [u32]) -> Result<(), Fail> {
    let (mut hall, q) = opened(PlanBook::single_leg(), HeapQueue::new())?;
    assert_eq!(rt; number(hall.enter(&q, 64, (0, 1, 1), short)), 2);
    assert_eq!(rt; number(hall.enter(&q, 63, (0, 1, 1), short)), 6);
    assert_eq!(rt; number(hall.enter(&q, 63, (1, 1, 1001), short)), 6);
    assert_eq!(rt; number(hall.enter(&q, 63, (1, 1, 1), short)), 15);
    untouched(rt, short);
    assert_eq!(rt; number(hall.leave(&q, 63, slip)), 5);
    untouched(rt, slip);
    assert_eq!(rt; number(hall.enter(&q, 63, (1, 1, 1), slip)), 0);
    assert_eq!(rt; number(hall.enter(&q, 63, (0, 1, 1), slip)), 4);
    Ok(())
}

fn leaving(rt: &impl Abort, slip: &mut [u32]) -> Result<(), Fail> {
    let (mut hall, q) = opened(PlanBook::single_leg(), HeapQueue::new())?;
    assert_eq!(rt; number(hall.enter(&q, 63, (1, 1, 1), slip)), 0);
    assert_eq!(rt; number(hall.leave(&q, 64, slip)), 2);
    assert_eq!(rt; number(hall.leave(&q, 63, slip)), 0);
    assert_eq!(rt; number(hall.leave(&q, 63, slip)), 5);
    Ok(())
}

fn filing(rt: &impl Abort, slip: &mut [u32], short: &mut [u32]) -> Result<(), Fail> {
    let (mut hall, q) = opened(PlanBook::single_leg(), HeapQueue::new())?;
    assert_eq!(rt; number(hall.file(&q, 64, from_100(1001, 60), short)), 2);
    assert_eq!(rt;
        number(hall.file(&q, 1, there_and_back(1001, 10, 8, 20), short)),
        8
    );
    assert_eq!(rt;
        number(hall.file(&q, 1, there_and_back(1, 10, 8, 20), short)),
        9
    );
    assert_eq!(rt; number(hall.file(&q, 1, from_100(1, 20), short)), 15);
    untouched(rt, short);
    assert_eq!(rt; number(hall.file(&q, 1, from_100(1, 20), slip)), 0);
    Ok(())
}

fn riding(rt: &impl Abort, slip: &mut [u32], short: &mut [u32]) -> Result<(), Fail> {
    let (mut hall, q) = opened(Riding::over(PlanBook::single_leg()), HeapQueue::new())?;
    assert_eq!(rt; number(hall.ride(&q, 64, 1, None, short)), 2);
    assert_eq!(rt; number(hall.ride(&q, 1, 1, Some(64), short)), 2);
    assert_eq!(rt; number(hall.ride(&q, 1, 1, Some(1), short)), 3);
    assert_eq!(rt; number(hall.ride(&q, 1, 1, None, short)), 10);
    assert_eq!(rt; number(hall.ride(&q, 1, 0, Some(2), short)), 15);
    untouched(rt, short);
    assert_eq!(rt; number(hall.ride(&q, 1, 0, Some(2), slip)), 0);
    Ok(())
}

fn clocks(rt: &impl Abort, slip: &mut [u32], short: &mut [u32]) -> Result<(), Fail> {
    let (mut hall, q) = opened(PlanBook::single_leg(), HeapQueue::new())?;
    assert_eq!(rt; number(hall.file(&q, 1, from_100(-3, 60), slip)), 0);
    assert_eq!(rt; number(hall.enter(&q, 1, (1, 1, 1), slip)), 0);
    let (q, refusal) = hall.set(q, 1, 0).err().ok_or("set to no time")?;
    assert_eq!(rt; u8::from(refusal), 11);
    let due = set(&mut hall, q, 60)?;
    assert_eq!(rt; number(hall.step(&due, short)), 15);
    untouched(rt, short);
    let (due, refusal) = hall.rest(due).err().ok_or("at rest too early")?;
    assert_eq!(rt; u8::from(refusal), 14);
    assert_eq!(rt; number(hall.step(&due, slip)), 0);
    assert_eq!(rt; number(hall.step(&due, slip)), 13);
    let q = rest(&mut hall, due)?;
    let (_, refusal) = hall.set(q, 59, 1).err().ok_or("set back")?;
    assert_eq!(rt; u8::from(refusal), 12);
    Ok(())
}

fn strangers(rt: &impl Abort, slip: &mut [u32]) -> Result<(), Fail> {
    let (mut hall, q) = opened(PlanBook::single_leg(), HeapQueue::new())?;
    let (mut other, p) = opened(PlanBook::single_leg(), HeapQueue::new())?;
    let due = set(&mut hall, q, 60)?;
    assert_eq!(rt; number(hall.touching(&p, 64, 64)), 1);
    assert_eq!(rt; number(other.step(&due, slip)), 1);
    let _ = rest(&mut hall, due)?;
    assert_eq!(rt; number(hall.enter(&p, 64, (1, 1, 1), slip)), 1);
    untouched(rt, slip);
    Ok(())
}

#[test]
fn entering_is_refused(rt: HostRuntime) -> Result<(), Fail> {
    let mut slip = [0u32; 190];
    let mut short = [0u32; 189];
    entering(&rt, &mut slip, &mut short)
}

#[test]
fn leaving_is_refused(rt: HostRuntime) -> Result<(), Fail> {
    let mut slip = [0u32; 380];
    leaving(&rt, &mut slip)
}

#[test]
fn filing_is_refused(rt: HostRuntime) -> Result<(), Fail> {
    let mut slip = [0u32; 12224];
    let mut short = [0u32; 12223];
    filing(&rt, &mut slip, &mut short)
}

#[test]
fn riding_is_refused(rt: HostRuntime) -> Result<(), Fail> {
    let mut slip = [0u32; 12224];
    let mut short = [0u32; 12223];
    riding(&rt, &mut slip, &mut short)
}

#[test]
fn clocks_are_refused(rt: HostRuntime) -> Result<(), Fail> {
    let mut slip = [0u32; 12224];
    let mut short = [0u32; 379];
    clocks(&rt, &mut slip, &mut short)
}

#[test]
fn clocks_of_another_hall_are_refused(rt: HostRuntime) -> Result<(), Fail> {
    let mut slip = [0u32; 380];
    strangers(&rt, &mut slip)
}

#[test]
fn questions_are_refused(rt: HostRuntime) -> Result<(), Fail> {
    let mut slip = [0u32; 190];
    let (mut hall, q) = opened(PlanBook::single_leg(), HeapQueue::new())?;
    assert_eq!(rt; number(hall.enter(&q, 2, (1, 1, 1), &mut slip)), 0);
    assert_eq!(rt; number(hall.touching(&q, 64, 64)), 2);
    assert_eq!(rt; number(hall.touching(&q, 3, 3)), 3);
    assert_eq!(rt; number(hall.touching(&q, 2, 3)), 5);
    assert_eq!(rt; number(hall.certificate(12352)), 7);
    assert_eq!(rt; number(hall.certificate(12351)), 0);
    Ok(())
}
