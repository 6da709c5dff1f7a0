//! Riding layers.
use crate::shows::{along_x, files, follows, legs, numbers, rides};
use books::PlanBook;
use riding::Riding;
use std::test::Fail;

type Two = Riding<Riding<PlanBook>>;

fn two() -> Two {
    Riding::over(Riding::over(PlanBook::single_leg()))
}

// craft 0 carries 1 at level 0, and 1 carries 2 at level 1
#[test]
fn a_formation(rt: HostRuntime) -> Result<(), Fail> {
    let mut book = two();
    numbers(&rt, &book, 2, 4, 1);
    files(
        &rt,
        &mut book,
        &[
            (0, along_x(100, 10, 2, 20), 0),
            (1, along_x(5, 10, 1, 30), 0),
            (2, along_x(-50, 15, -4, 20), 0),
        ],
    );
    rides(&rt, &mut book, &[(1, 0, Some(0), 0), (2, 1, Some(1), 0)]);
    legs(
        &rt,
        &book,
        &[
            (0, 0, 1, (100, 0), Some(10)),
            (1, 0, 1, (105, 0), Some(10)),
            (1, 10, 1, (75, 3), Some(20)),
            (1, 41, 2, (115, 1), Some(30)),
            (2, 10, 1, (25, 3), Some(15)),
            (2, 15, 1, (85, -1), Some(20)),
            (2, 20, 1, (45, 1), Some(30)),
        ],
    )?;
    follows(
        &rt,
        &book,
        &[
            (0, 0, true),
            (1, 0, true),
            (2, 0, true),
            (2, 1, true),
            (0, 1, false),
            (1, 2, false),
            (3, 0, false),
        ],
    );
    Ok(())
}

#[test]
fn seats_by_level(rt: HostRuntime) -> Result<(), Fail> {
    let mut book = two();
    files(&rt, &mut book, &[(0, along_x(100, 0, 1, 5), 0)]);
    // 1 rides on 0 at level 1, 2 on 1 at level 0: below 1 stands, so 2 does not move
    rides(&rt, &mut book, &[(1, 1, Some(0), 0), (2, 0, Some(1), 0)]);
    legs(
        &rt,
        &book,
        &[(1, 0, 1, (100, 1), Some(5)), (2, 0, 1, (0, 0), None)],
    )?;
    follows(&rt, &book, &[(1, 0, true), (2, 0, false)]);
    // both levels: twice the carrier
    rides(&rt, &mut book, &[(1, 0, Some(0), 0)]);
    legs(&rt, &book, &[(1, 0, 1, (200, 2), Some(5))])?;
    // an emptied seat, and a carrier without a plan
    rides(&rt, &mut book, &[(1, 1, None, 0), (1, 0, Some(9), 0)]);
    legs(&rt, &book, &[(1, 0, 1, (0, 0), None)])
}

#[test]
fn circles(rt: HostRuntime) -> Result<(), Fail> {
    let mut book = Riding::over(PlanBook::itinerary());
    files(
        &rt,
        &mut book,
        &[(0, along_x(3, 0, 1, 4), 0), (1, along_x(10, 2, 5, 4), 0)],
    );
    rides(&rt, &mut book, &[(0, 0, Some(1), 0), (1, 0, Some(0), 0)]);
    legs(
        &rt,
        &book,
        &[
            (0, 0, 1, (13, 1), Some(2)),
            (1, 0, 1, (13, 1), Some(2)),
            (1, 5, 2, (3, 6), Some(4)),
        ],
    )?;
    follows(&rt, &book, &[(0, 1, true), (1, 0, true)]);
    Ok(())
}

#[test]
fn refusals(rt: HostRuntime) {
    let mut book = two();
    rides(
        &rt,
        &mut book,
        &[
            (64, 0, Some(64), 2),
            (0, 0, Some(64), 2),
            (64, 1, None, 2),
            (0, 1, Some(64), 2),
            (7, 0, Some(7), 3),
            (7, 1, Some(7), 3),
            (7, 9, Some(7), 3),
            (7, 2, Some(8), 10),
            (7, 2, None, 10),
            (7, 255, Some(8), 10),
        ],
    );
    files(
        &rt,
        &mut book,
        &[(64, along_x(0, 1, 1, 1), 2), (0, along_x(0, 1, 1, 1), 8)],
    );
}

#[test]
fn four_and_five_layers(rt: HostRuntime) -> Result<(), Fail> {
    let mut four = Riding::over(Riding::over(two()));
    numbers(&rt, &four, 3, 9, 1);
    files(&rt, &mut four, &[(0, along_x(1000000, 0, 1000, 50000), 0)]);
    rides(&rt, &mut four, &[(1, 2, Some(0), 0), (1, 3, Some(0), 10)]);
    legs(&rt, &four, &[(1, 50000, 1, (51000000, 0), None)])?;
    let mut five = Riding::over(four);
    numbers(&rt, &five, 3, 9, 1);
    rides(&rt, &mut five, &[(1, 3, Some(0), 10), (1, 1, Some(0), 0)]);
    legs(&rt, &five, &[(1, 0, 1, (2000000, 2000), Some(50000))])?;
    follows(&rt, &five, &[(1, 0, true)]);
    Ok(())
}
