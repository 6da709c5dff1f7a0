use std::test::Fail;
use times::{Moment, Refusal, Time};

// n / d as given, and what comes of it: (n, d) in least terms, or the number of the refusal
const MADE: [(u32, u16, u32, u16); 12] = [
    (2, 4, 1, 2),
    (0, 7, 0, 1),
    (800000000, 16000, 50000, 1),
    (799999999, 16000, 799999999, 16000),
    (50000, 1, 50000, 1),
    (1, 16000, 1, 16000),
    (80, 3, 80, 3),
    (15999, 15999, 1, 1),
    (0, 1, 0, 1),
    (16000, 15999, 16000, 15999),
    (400000000, 8000, 50000, 1),
    (35, 21, 5, 3),
];

// no times: a denominator of 0 or above 16,000, or a value above 50,000
const REFUSED: [(u32, u16); 8] = [
    (0, 0),
    (1, 0),
    (0, 16001),
    (2, 32000),
    (50001, 1),
    (800000001, 16000),
    (4294967295, 16000),
    (100001, 2),
];

#[test]
fn reduces(rt: HostRuntime) -> Result<(), Fail> {
    for (n, d, m, e) in MADE {
        let t = Time::new(n, d)?;
        assert_eq!(rt; t.numerator(), m);
        assert_eq!(rt; t.denominator(), e);
    }
    Ok(())
}

#[test]
fn refuses(rt: HostRuntime) -> Result<(), Fail> {
    for (n, d) in REFUSED {
        assert_eq!(rt; Time::new(n, d), Err(Refusal::GoalRange));
    }
    assert_eq!(rt; Time::at_tick(50001), Err(Refusal::GoalRange));
    assert_eq!(rt; Time::at_tick(50000)?, Time::new(50000, 1)?);
    assert_eq!(rt; u8::from(Refusal::WrongClock), 1);
    assert_eq!(rt; u8::from(Refusal::GoalRange), 11);
    assert_eq!(rt; u8::from(Refusal::QueueHolds), 18);
    Ok(())
}

#[test]
fn whole_parts(rt: HostRuntime) -> Result<(), Fail> {
    assert_eq!(rt; Time::new(80, 3)?.whole(), 26);
    assert_eq!(rt; Time::new(81, 3)?.whole(), 27);
    assert_eq!(rt; Time::new(799999999, 16000)?.whole(), 49999);
    assert_eq!(rt; Time::zero().whole(), 0);
    Ok(())
}

#[test]
fn orders(rt: HostRuntime) -> Result<(), Fail> {
    let a = Time::new(1, 3)?;
    let b = Time::new(5333, 16000)?;
    let c = Time::new(2, 6)?;
    assert!(rt; b < a);
    assert!(rt; !(a < b));
    assert!(rt; !(a < c));
    assert!(rt; a == c);
    assert!(rt; a != b);
    assert!(rt; Moment::at(a) < Moment::just_after(c));
    assert!(rt; !(Moment::just_after(a) < Moment::at(c)));
    assert!(rt; !(Moment::at(a) < Moment::at(c)));
    assert!(rt; !(Moment::just_after(a) < Moment::just_after(c)));
    assert!(rt; Moment::just_after(b) < Moment::at(a));
    assert!(rt; !(Moment::at(a) < Moment::just_after(b)));
    Ok(())
}
