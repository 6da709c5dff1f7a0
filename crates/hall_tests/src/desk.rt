//! What the tests share: plans, and calls that must be accepted.
use books::FlightBook;
use hall::{Due, Hall, Quiet};
use plans::{Leg, Plan, Position, Speed};
use queues::EventQueue;
use runs::Ran;
use std::process::Abort;
use std::test::Fail;
use times::Refusal;

/// A leg along x.
pub fn along_x(start: u16, speed: i16) -> Leg {
    Leg {
        start,
        speed: Speed {
            x: speed,
            y: 0,
            z: 0,
        },
    }
}

/// From (100, 0, 0) along x, with one leg from tick 0.
pub fn from_100(speed: i16, end: u16) -> Plan {
    let mut plan = Plan::new(Position { x: 100, y: 0, z: 0 }, end);
    plan.push_leg(along_x(0, speed));
    plan
}

/// The same, and a second leg.
pub fn there_and_back(speed: i16, turn: u16, back: i16, end: u16) -> Plan {
    let mut plan = from_100(speed, end);
    plan.push_leg(along_x(turn, back));
    plan
}

/// The number of a refusal, or 0.
pub fn number<T: Drop>(answer: Result<T, Refusal>) -> u8 {
    answer.err().map_or(0, |refusal| u8::from(refusal))
}

/// The lines that an accepted call wrote.
pub fn wrote(
    rt: &impl Abort,
    answer: Result<usize, Refusal>,
    slip: &[u32],
    lines: &[u32],
) -> Result<(), Fail> {
    let n = answer?;
    assert_eq!(rt; n, lines.len());
    assert_eq!(rt; slip.get(0..n), Some(lines));
    Ok(())
}

/// A quiet clock set forward.
pub fn set<B: FlightBook, Q: EventQueue>(
    hall: &mut Hall<B, Q>,
    q: Quiet,
    tick: u32,
) -> Result<Due, Fail> {
    Ok(hall.set(q, tick, 1).map_err(|back| back.1)?)
}

/// A due clock at rest.
pub fn rest<B: FlightBook, Q: EventQueue>(hall: &mut Hall<B, Q>, due: Due) -> Result<Quiet, Fail> {
    Ok(hall.rest(due).map_err(|back| back.1)?)
}

/// On to a tick: set, run and rest.
pub fn on_to<B: FlightBook, Q: EventQueue>(
    hall: &mut Hall<B, Q>,
    q: Quiet,
    tick: u32,
    slip: &mut [u32],
    page: &mut [u8],
) -> Result<(Quiet, Ran), Fail> {
    let due = set(hall, q, tick)?;
    let (due, ran) = hall.run(due, slip, page).map_err(|back| back.1)?;
    let q = rest(hall, due)?;
    Ok((q, ran))
}

/// A hall over a book and an empty queue.
pub fn opened<B: FlightBook + Drop, Q: EventQueue + Drop>(
    book: B,
    queue: Q,
) -> Result<(Hall<B, Q>, Quiet), Fail> {
    Ok(Hall::open(book, queue).map_err(|back| back.2)?)
}
