use fleet::Xyz;
use plans::{Leg, LegAnswer, Plan, Position, Route, Speed};
use std::test::Fail;
use times::Time;

fn at(x: i32, y: i32, z: i32) -> Position {
    Position { x, y, z }
}

fn leg(start: u16, x: i16, y: i16, z: i16) -> Leg {
    Leg {
        start,
        speed: Speed { x, y, z },
    }
}

// a plan of one leg
fn single(start: Position, first: Leg, end: u16) -> Plan {
    let mut plan = Plan::new(start, end);
    plan.push_leg(first);
    plan
}

// a plan of `count` legs, one a tick from tick 0 on
fn many(count: u16) -> Plan {
    let mut plan = Plan::new(at(0, 0, 0), 50000);
    for k in 0..count {
        plan.push_leg(leg(k, 1, 1, 1));
    }
    plan
}

// 0 for a plan that keeps its rules, else the number of the refusal
fn told(plan: Plan) -> u8 {
    match Route::new(plan) {
        Ok(_) => 0,
        Err(refusal) => u8::from(refusal),
    }
}

#[test]
fn starts_in_range(rt: HostRuntime) {
    let m = 1000000;
    let still = leg(0, 0, 0, 0);
    for p in [at(m, -m, m), at(-m, m, -m)] {
        assert_eq!(rt; told(single(p, still, 1)), 0);
    }
    for p in [
        at(m + 1, 0, 0),
        at(-m - 1, 0, 0),
        at(0, m + 1, 0),
        at(0, -m - 1, 0),
        at(0, 0, m + 1),
        at(0, 0, -m - 1),
        at(i32::MIN, 0, 0),
        at(0, 0, i32::MAX),
    ] {
        assert_eq!(rt; told(single(p, still, 1)), 8);
    }
}

#[test]
fn speeds_in_range(rt: HostRuntime) {
    for l in [leg(0, 1000, -1000, 1000), leg(0, -1000, 1000, -1000)] {
        assert_eq!(rt; told(single(at(0, 0, 0), l, 1)), 0);
    }
    for l in [
        leg(0, 1001, 0, 0),
        leg(0, -1001, 0, 0),
        leg(0, 0, 1001, 0),
        leg(0, 0, -1001, 0),
        leg(0, 0, 0, 1001),
        leg(0, 0, 0, -1001),
        leg(0, i16::MIN, 0, 0),
    ] {
        assert_eq!(rt; told(single(at(0, 0, 0), l, 1)), 8);
    }
}

#[test]
fn legs_counted(rt: HostRuntime) {
    assert_eq!(rt; told(many(0)), 8);
    assert_eq!(rt; told(many(1)), 0);
    assert_eq!(rt; told(many(8)), 0);
    assert_eq!(rt; told(many(9)), 8);
    assert_eq!(rt; told(many(300)), 8);
}

#[test]
fn ticks_rise(rt: HostRuntime) {
    let p = at(0, 0, 0);
    assert_eq!(rt; told(single(p, leg(49999, 0, 0, 0), 50000)), 0);
    assert_eq!(rt; told(single(p, leg(50000, 0, 0, 0), 50000)), 8);
    assert_eq!(rt; told(single(p, leg(49999, 0, 0, 0), 50001)), 8);
    assert_eq!(rt; told(single(p, leg(0, 0, 0, 0), 0)), 8);
    for (second, number) in [(5, 0), (4, 8), (3, 8), (10, 8), (9, 0)] {
        let mut plan = single(p, leg(4, 1, 0, 0), 10);
        plan.push_leg(leg(second, 0, 0, 0));
        assert_eq!(rt; told(plan), number);
    }
}

// along x: stands at 100 until 5, then 2 a tick, from 10 on -3 a tick, until 20; along z: 1000 a tick from 10 to 20
fn two_legs() -> Plan {
    let mut plan = single(at(100, -7, 0), leg(5, 2, 0, 0), 20);
    plan.push_leg(leg(10, -3, 0, 1000));
    plan
}

#[test]
fn legs_at_times(rt: HostRuntime) -> Result<(), Fail> {
    let route = Route::new(two_legs())?;
    let y = (-7, 0);
    let stands = LegAnswer {
        lines: Xyz {
            x: (100, 0),
            y,
            z: (0, 0),
        },
        next: Some(5),
    };
    let first = LegAnswer {
        lines: Xyz {
            x: (90, 2),
            y,
            z: (0, 0),
        },
        next: Some(10),
    };
    let second = LegAnswer {
        lines: Xyz {
            x: (140, -3),
            y,
            z: (-10000, 1000),
        },
        next: Some(20),
    };
    let ended = LegAnswer {
        lines: Xyz {
            x: (80, 0),
            y,
            z: (10000, 0),
        },
        next: None,
    };
    for (n, d, answer) in [
        (0, 1, stands),
        (4, 1, stands),
        (79999, 16000, stands),
        (5, 1, first),
        (19, 2, first),
        (10, 1, second),
        (31, 3, second),
        (39, 2, second),
        (20, 1, ended),
        (41, 2, ended),
        (50000, 1, ended),
    ] {
        assert_eq!(rt; route.leg(Time::new(n, d)?), answer);
    }
    Ok(())
}

#[test]
fn far_ends(rt: HostRuntime) -> Result<(), Fail> {
    let plan = single(at(1000000, -1000000, 0), leg(0, 1000, -1000, 0), 50000);
    let route = Route::new(plan)?;
    let runs = LegAnswer {
        lines: Xyz {
            x: (1000000, 1000),
            y: (-1000000, -1000),
            z: (0, 0),
        },
        next: Some(50000),
    };
    let ended = LegAnswer {
        lines: Xyz {
            x: (51000000, 0),
            y: (-51000000, 0),
            z: (0, 0),
        },
        next: None,
    };
    assert_eq!(rt; route.leg(Time::zero()), runs);
    assert_eq!(rt; route.leg(Time::new(799999999, 16000)?), runs);
    assert_eq!(rt; route.leg(Time::new(50000, 1)?), ended);
    let late = single(at(0, 0, 0), leg(49999, 1000, 0, 0), 50000);
    let route = Route::new(late)?;
    assert_eq!(rt; route.leg(Time::new(49999, 1)?).lines.x, (-49999000, 1000));
    assert_eq!(rt;
        LegAnswer::unplanned(),
        LegAnswer {
            lines: Xyz {
                x: (0, 0),
                y: (0, 0),
                z: (0, 0),
            },
            next: None,
        }
    );
    Ok(())
}
