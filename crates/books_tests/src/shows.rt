//! Plans, and tables of calls with what they are to answer.
use books::FlightBook;
use fleet::Xyz;
use plans::{Leg, LegAnswer, Plan, Position, Speed};
use std::process::Abort;
use std::test::Fail;
use times::{Refusal, Time};

/// A plan with one leg along x: from `x`, at `speed` from tick `start` to tick `end`.
pub fn along_x(x: i32, start: u16, speed: i16, end: u16) -> Plan {
    let mut plan = Plan::new(Position { x, y: 0, z: 0 }, end);
    plan.push_leg(Leg {
        start,
        speed: Speed {
            x: speed,
            y: 0,
            z: 0,
        },
    });
    plan
}

/// The same with a second leg that stands, from tick `second` on.
pub fn two_legs(x: i32, start: u16, speed: i16, second: u16, end: u16) -> Plan {
    let mut plan = along_x(x, start, speed, end);
    plan.push_leg(Leg {
        start: second,
        speed: Speed { x: 0, y: 0, z: 0 },
    });
    plan
}

// 0 for a change that is accepted, else the number of its refusal
fn number(r: Result<(), Refusal>) -> u8 {
    match r {
        Ok(()) => 0,
        Err(refusal) => u8::from(refusal),
    }
}

/// Files plans: craft, plan, and the number of the refusal or 0.
pub fn files<B: FlightBook>(rt: &impl Abort, book: &mut B, rows: &[(u8, Plan, u8)]) {
    for (craft, plan, refusal) in rows {
        assert_eq!(rt; number(book.file(*craft, *plan)), *refusal);
    }
}

/// Sets seats: craft, level, carrier, and the number of the refusal or 0.
pub fn rides<B: FlightBook>(rt: &impl Abort, book: &mut B, rows: &[(u8, u8, Option<u8>, u8)]) {
    for (craft, level, carrier, refusal) in rows {
        assert_eq!(rt; number(book.ride(*craft, *level, *carrier)), *refusal);
    }
}

/// Asks for legs: craft, the time n / d, then the line along x and the first break.
pub fn legs<B: FlightBook>(
    rt: &impl Abort,
    book: &B,
    rows: &[(u8, u32, u16, (i32, i32), Option<u16>)],
) -> Result<(), Fail> {
    for (craft, n, d, x, next) in rows {
        let answer = LegAnswer {
            lines: Xyz {
                x: *x,
                y: (0, 0),
                z: (0, 0),
            },
            next: *next,
        };
        assert_eq!(rt; book.leg(*craft, Time::new(*n, *d)?), Ok(answer));
    }
    assert_eq!(rt; book.leg(64, Time::zero()), Err(Refusal::CraftRange));
    Ok(())
}

/// Asks who follows: craft, leader, and whether it does.
pub fn follows<B: FlightBook>(rt: &impl Abort, book: &B, rows: &[(u8, u8, bool)]) {
    for (craft, leader, so) in rows {
        assert_eq!(rt; book.follows(*craft, *leader), Ok(*so));
    }
    assert_eq!(rt; book.follows(64, 0), Err(Refusal::CraftRange));
    assert_eq!(rt; book.follows(0, 64), Err(Refusal::CraftRange));
}

/// The levels, the scale and the leg limit.
pub fn numbers<B: FlightBook>(rt: &impl Abort, book: &B, levels: u8, scale: u8, limit: u8) {
    assert_eq!(rt;
        (book.levels(), book.scale(), book.leg_limit()),
        (levels, scale, limit)
    );
}
