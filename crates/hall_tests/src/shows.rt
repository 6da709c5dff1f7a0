//! The small show through the code, over both queues, and a formation on two layers.
use crate::desk::{from_100, number, on_to, opened, there_and_back, wrote};
use books::{FlightBook, PlanBook};
use calendar_queue::CalendarQueue;
use heap_queue::HeapQueue;
use queues::EventQueue;
use riding::Riding;
use std::process::Abort;
use std::test::Fail;

const CUBE: (u16, u16, u16) = (10, 10, 10);

/// Whether the page starts with these bytes.
fn paged(rt: &impl Abort, page: &[u8], bytes: &[u8]) -> Result<(), Fail> {
    assert_eq!(rt; page.get(0..bytes.len()), Some(bytes));
    Ok(())
}

/// Whether the list is this.
fn reads(rt: &impl Abort, list: &[u16], entries: &[u16]) {
    assert!(rt; list == entries);
}

/// Craft 1 flies through craft 0: they meet at 80/3 and part at 40.
fn past<Q: EventQueue + Drop>(rt: &impl Abort, queue: Q) -> Result<(), Fail> {
    let mut slip = [7u32; 12224];
    let mut page = [7u8; 110];
    let (mut hall, q) = opened(PlanBook::single_leg(), queue)?;
    wrote(
        rt,
        hall.file(&q, 1, from_100(-3, 60), &mut slip),
        &slip,
        &[],
    )?;
    wrote(rt, hall.enter(&q, 0, CUBE, &mut slip), &slip, &[5])?;
    wrote(
        rt,
        hall.enter(&q, 1, CUBE, &mut slip),
        &slip,
        &[9, 13, 17, 21],
    )?;
    let (q, ran) = on_to(&mut hall, q, 30, &mut slip, &mut page)?;
    assert_eq!(rt; ran.steps, 1);
    wrote(rt, Ok(ran.lines), &slip, &[10, 25])?;
    assert_eq!(rt; slip[2], 17);
    assert_eq!(rt; ran.bytes, 11);
    paged(rt, &page, &[1, 0, 8, 0, 1, 0, 0, 0, 0x50, 0, 3, 7])?;
    assert!(rt; hall.touching(&q, 0, 1)?);
    let (q, ran) = on_to(&mut hall, q, 40, &mut slip, &mut page)?;
    assert_eq!(rt; ran.steps, 0);
    assert!(rt; hall.touching(&q, 0, 1)?);
    let (q, ran) = on_to(&mut hall, q, 50, &mut slip, &mut page)?;
    assert_eq!(rt; ran.steps, 1);
    wrote(rt, Ok(ran.lines), &slip, &[26, 29])?;
    paged(rt, &page, &[2, 0, 8, 0, 1, 0, 0, 0, 40, 0, 1, 7])?;
    assert!(rt; !hall.touching(&q, 0, 1)?);
    Ok(())
}

/// Craft 1 turns where the boxes touch: a meeting and a parting at 10, the meeting first.
fn turn<Q: EventQueue + Drop>(rt: &impl Abort, queue: Q) -> Result<(), Fail> {
    let mut slip = [7u32; 12224];
    let mut page = [7u8; 110];
    let (mut hall, q) = opened(PlanBook::itinerary(), queue)?;
    assert_eq!(rt;
        number(hall.file(&q, 1, there_and_back(-8, 10, 8, 20), &mut slip)),
        0
    );
    assert_eq!(rt; number(hall.enter(&q, 0, CUBE, &mut slip)), 0);
    assert_eq!(rt; number(hall.enter(&q, 1, CUBE, &mut slip)), 0);
    let (q, ran) = on_to(&mut hall, q, 30, &mut slip, &mut page)?;
    assert_eq!(rt; ran.bytes, 22);
    paged(
        rt,
        &page,
        &[
            1, 0, 8, 0, 1, 0, 0, 0, 10, 0, 1, 2, 0, 8, 0, 1, 0, 0, 0, 10, 0, 1, 7,
        ],
    )?;
    assert!(rt; !hall.touching(&q, 0, 1)?);
    Ok(())
}

#[test]
fn past_over_a_heap(rt: HostRuntime) -> Result<(), Fail> {
    past(&rt, HeapQueue::new())
}

#[test]
fn past_over_a_calendar(rt: HostRuntime) -> Result<(), Fail> {
    past(&rt, CalendarQueue::new())
}

#[test]
fn turn_over_a_heap(rt: HostRuntime) -> Result<(), Fail> {
    turn(&rt, HeapQueue::new())
}

#[test]
fn turn_over_a_calendar(rt: HostRuntime) -> Result<(), Fail> {
    turn(&rt, CalendarQueue::new())
}

// 2 rides on 1 and 1 on 0, each at a level of its own: all three stand and fly where 0 does, and pass 3
fn formation(
    rt: &impl Abort,
    slip: &mut [u32],
    page: &mut [u8],
    list: &mut [u16],
    short: &mut [u16],
) -> Result<(), Fail> {
    let book = Riding::over(Riding::over(PlanBook::single_leg()));
    let (mut hall, q) = opened(book, HeapQueue::new())?;
    assert_eq!(rt; number(hall.file(&q, 0, from_100(-3, 60), slip)), 0);
    assert_eq!(rt; number(hall.ride(&q, 1, 0, Some(0), slip)), 0);
    assert_eq!(rt; number(hall.ride(&q, 2, 1, Some(1), slip)), 0);
    for craft in 0..4u8 {
        assert_eq!(rt; number(hall.enter(&q, craft, CUBE, slip)), 0);
    }
    assert_eq!(rt; number(hall.list(&q, short)), 15);
    reads(rt, short, &[9, 9]);
    assert_eq!(rt; number(hall.list(&q, list)), 0);
    reads(rt, list, &[1, 2, 66, 9]);
    let (q, ran) = on_to(&mut hall, q, 30, slip, page)?;
    assert_eq!(rt; ran.bytes, 33);
    assert_eq!(rt; number(hall.list(&q, list)), 15);
    Ok(())
}

#[test]
fn a_formation_on_two_layers(rt: HostRuntime) -> Result<(), Fail> {
    let mut slip = [0u32; 12224];
    let mut page = [0u8; 110];
    let mut list = [9u16; 4];
    let mut short = [9u16; 2];
    formation(&rt, &mut slip, &mut page, &mut list, &mut short)
}
