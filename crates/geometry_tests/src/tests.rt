use fleet::{Axis, Xyz};
use geometry::{HalfSizes, Span, first_wrong, overlaps};
use std::process::Abort;
use std::test::Fail;
use times::{Moment, Refusal, Time};

// a moment as n, d and side
type Numbers = (u32, u16, u8);

// the bit, two lines (a, v) with half sizes, the moment, and the first wrong one, if there is one
type Row = (
    bool,
    (i32, i32),
    u16,
    (i32, i32),
    u16,
    Numbers,
    Option<Numbers>,
);

const NEVER: Option<Numbers> = None;

const CONTACTS: [Row; 10] = [
    // from 100 below, at 3 a tick: the ends meet after 80 of the way, and leave each other after 120
    (false, (-100, 3), 12, (0, 0), 8, (0, 1, 0), Some((80, 3, 0))),
    (true, (-100, 3), 12, (0, 0), 8, (80, 3, 0), Some((40, 1, 1))),
    (false, (-100, 3), 12, (0, 0), 8, (40, 1, 1), NEVER),
    // the same from above
    (false, (100, -3), 12, (0, 0), 8, (0, 1, 0), Some((80, 3, 0))),
    (true, (100, -3), 12, (0, 0), 8, (80, 3, 1), Some((40, 1, 1))),
    // the other one moves
    (false, (0, 0), 12, (100, -3), 8, (0, 1, 0), Some((80, 3, 0))),
    // ends that meet at the moment itself overlap at side 0, and where they part not at side 1
    (false, (0, -1), 10, (15, 1), 5, (0, 1, 0), Some((0, 1, 0))),
    (true, (0, -1), 10, (15, 1), 5, (0, 1, 0), Some((0, 1, 1))),
    (true, (0, -1), 10, (15, 1), 5, (0, 1, 1), Some((0, 1, 1))),
    (false, (0, -1), 10, (15, 1), 5, (0, 1, 1), NEVER),
];

const SPEEDS: [Row; 6] = [
    // equal speeds: a bit is wrong now or never
    (true, (0, 7), 10, (15, 7), 5, (3, 2, 0), NEVER),
    (false, (0, 7), 10, (15, 7), 5, (3, 2, 0), Some((3, 2, 0))),
    (true, (0, 7), 10, (16, 7), 5, (3, 2, 1), Some((3, 2, 1))),
    (false, (0, 7), 10, (16, 7), 5, (3, 2, 1), NEVER),
    // to 10, and from there back: the pair touches for one instant
    (false, (0, 1), 10, (25, 0), 5, (0, 1, 0), Some((10, 1, 0))),
    (true, (20, -1), 10, (25, 0), 5, (10, 1, 0), Some((10, 1, 1))),
];

const LIMITS: [Row; 12] = [
    // at 50,000 and just past it
    (
        false,
        (0, 1),
        1,
        (50002, 0),
        1,
        (0, 1, 0),
        Some((50000, 1, 0)),
    ),
    (false, (0, 1), 1, (50003, 0), 1, (0, 1, 0), NEVER),
    (
        true,
        (0, 1),
        1,
        (49998, 0),
        1,
        (50000, 1, 0),
        Some((50000, 1, 1)),
    ),
    (true, (0, 1), 1, (49999, 0), 1, (50000, 1, 0), NEVER),
    (false, (0, 2), 1, (100003, 0), 1, (0, 1, 0), NEVER),
    (
        false,
        (0, 2),
        1,
        (100001, 0),
        1,
        (0, 1, 0),
        Some((99999, 2, 0)),
    ),
    // the largest speeds and distances
    (
        false,
        (-400000000, 8000),
        1000,
        (400000000, -8000),
        1000,
        (0, 1, 0),
        Some((399999, 8, 0)),
    ),
    (
        false,
        (-399999999, 8000),
        1,
        (400000000, -8000),
        1,
        (0, 1, 0),
        Some((799999997, 16000, 0)),
    ),
    (
        true,
        (-400000000, 8000),
        1000,
        (400000000, -8000),
        1000,
        (50000, 1, 0),
        NEVER,
    ),
    (
        false,
        (-808000000, 8000),
        1000,
        (808000000, -8000),
        1000,
        (0, 1, 0),
        NEVER,
    ),
    // slopes that no scale allows have no crossing that is a time
    (
        false,
        (-2147483648, 2147483647),
        1,
        (2147483647, -2147483648),
        1,
        (0, 1, 0),
        NEVER,
    ),
    (
        true,
        (-2147483648, 2147483647),
        1,
        (2147483647, -2147483648),
        1,
        (0, 1, 0),
        Some((0, 1, 0)),
    ),
];

fn half(x: u16, y: u16, z: u16) -> Result<HalfSizes, Refusal> {
    HalfSizes::new(Xyz { x, y, z })
}

fn told(m: Option<Moment>) -> Option<Numbers> {
    m.map(|m| (m.time.numerator(), m.time.denominator(), u8::from(m.after)))
}

fn holds(rt: &impl Abort, row: Row) -> Result<(), Fail> {
    let (bit, p, g, q, h, (n, d, side), want) = row;
    let p = Span::new(p, half(1000, g, 1)?, Axis::Y);
    let q = Span::new(q, half(1000, h, 1)?, Axis::Y);
    let from = Moment {
        time: Time::new(n, d)?,
        after: side == 1,
    };
    assert_eq!(rt; told(first_wrong(bit, p, q, from)), want);
    assert_eq!(rt; told(first_wrong(bit, q, p, from)), want);
    Ok(())
}

#[test]
fn contacts(rt: HostRuntime) -> Result<(), Fail> {
    for row in CONTACTS {
        holds(&rt, row)?;
    }
    Ok(())
}

#[test]
fn speeds(rt: HostRuntime) -> Result<(), Fail> {
    for row in SPEEDS {
        holds(&rt, row)?;
    }
    Ok(())
}

#[test]
fn limits(rt: HostRuntime) -> Result<(), Fail> {
    for row in LIMITS {
        holds(&rt, row)?;
    }
    Ok(())
}

#[test]
fn sides(rt: HostRuntime) -> Result<(), Fail> {
    let sizes = half(1, 2, 10)?;
    let other = half(3, 4, 5)?;
    let p = Span::new((0, -1), sizes, Axis::Z);
    let q = Span::new((15, 1), other, Axis::Z);
    let t = Time::zero();
    assert!(rt; overlaps(p, q, Moment::at(t)));
    assert!(rt; overlaps(q, p, Moment::at(t)));
    assert!(rt; !overlaps(p, q, Moment::just_after(t)));
    assert!(rt; !overlaps(q, p, Moment::just_after(t)));
    let p = Span::new((0, -1), sizes, Axis::X);
    let q = Span::new((5, 1), other, Axis::X);
    assert!(rt; !overlaps(p, q, Moment::at(t)));
    assert!(rt; overlaps(p, p, Moment::just_after(t)));
    Ok(())
}

#[test]
fn refuses(rt: HostRuntime) -> Result<(), Fail> {
    assert_eq!(rt; half(0, 1, 1), Err(Refusal::HalfSize));
    assert_eq!(rt; half(1, 0, 1), Err(Refusal::HalfSize));
    assert_eq!(rt; half(1, 1, 0), Err(Refusal::HalfSize));
    assert_eq!(rt; half(1001, 1, 1), Err(Refusal::HalfSize));
    assert_eq!(rt; half(1, 1001, 1), Err(Refusal::HalfSize));
    assert_eq!(rt; half(1, 1, 1001), Err(Refusal::HalfSize));
    let sizes = half(1, 1000, 7)?;
    assert_eq!(rt; sizes.on(Axis::X), 1);
    assert_eq!(rt; sizes.on(Axis::Y), 1000);
    assert_eq!(rt; sizes.on(Axis::Z), 7);
    Ok(())
}
