//! A small show through the hall's own calls, over each queue: craft 1 flies up to craft 0 and turns at tick 10, where the two boxes touch for an instant.
#![tactic(auto)]

use books::{FlightBook, PlanBook};
use calendar_queue::CalendarQueue;
use hall::Hall;
use heap_queue::HeapQueue;
use pages::{Kind, Reader};
use plans::{Leg, Plan, Position, Speed};
use queues::EventQueue;
use std::io;
use times::Refusal;

/// What the show told: how many bytes of the page, and whether the two touch at its end.
#[derive(Drop)]
struct Flown {
    bytes: usize,
    touch: bool,
}

/// From (100, 0, 0) along x: towards 0 until tick 10, and back until tick 20.
fn there_and_back() -> Plan {
    let mut plan = Plan::new(Position { x: 100, y: 0, z: 0 }, 20);
    plan.push_leg(Leg {
        start: 0,
        speed: Speed { x: -8, y: 0, z: 0 },
    });
    plan.push_leg(Leg {
        start: 10,
        speed: Speed { x: 8, y: 0, z: 0 },
    });
    plan
}

/// The show until tick 30.
fn fly<Q: EventQueue + Drop>(queue: Q, page: &mut [u8]) -> Result<Flown, Refusal> {
    let mut slip = [0u32; 12224];
    let (mut hall, q) = Hall::open(PlanBook::itinerary(), queue).map_err(|back| back.2)?;
    let _ = hall.file(&q, 1, there_and_back(), &mut slip)?;
    let _ = hall.enter(&q, 0, (10, 10, 10), &mut slip)?;
    let _ = hall.enter(&q, 1, (10, 10, 10), &mut slip)?;
    let due = hall.set(q, 30, 1).map_err(|back| back.1)?;
    let (due, ran) = hall.run(due, &mut slip, page).map_err(|back| back.1)?;
    let q = hall.rest(due).map_err(|back| back.1)?;
    let touch = hall.touching(&q, 0, 1)?;
    Ok(Flown {
        bytes: ran.bytes,
        touch,
    })
}

/// The word for a record's kind.
// No plainer by the kind's own text, which is "meeting" or "parting".
fn word(kind: Kind) -> &'static str {
    match kind {
        Kind::Meeting => "met",
        Kind::Parting => "parted",
    }
}

/// The page's first bytes in words.
fn told(rt: &HostRuntime, bytes: &[u8]) -> io::Result<()> {
    let mut reader = Reader::new(bytes);
    // No plainer as `while let`: a page of 110 bytes has ten records, and that reading ends would have to be shown.
    for _ in 0..100 {
        match reader.next() {
            Ok(Some(record)) => {
                let kind = word(record.kind);
                let (lower, higher, n, d) = (record.lower, record.higher, record.n, record.d);
                println!(rt; "  {kind} {lower} {higher} at {n}/{d}")?;
            }
            _ => return Ok(()),
        }
    }
    Ok(())
}

/// The show over a queue, in words.
fn show<Q: EventQueue + Drop>(rt: &HostRuntime, name: &str, queue: Q) -> io::Result<()> {
    let mut page = [0u8; 110];
    match fly(queue, &mut page) {
        Ok(flown) => {
            let touch = if flown.touch { "touching" } else { "clear" };
            println!(rt; "{name}: {touch} at the end")?;
            match page.get(0..flown.bytes) {
                Some(bytes) => told(rt, bytes),
                None => Ok(()),
            }
        }
        Err(refusal) => {
            let number = u8::from(refusal);
            println!(rt; "{name}: refused {number}")
        }
    }
}

fn main(rt: HostRuntime) -> io::Result<()> {
    show(&rt, "heap", HeapQueue::new())?;
    show(&rt, "calendar", CalendarQueue::new())
}
