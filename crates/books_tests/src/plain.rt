//! The single-leg book and the itinerary book.
use crate::shows::{along_x, files, follows, legs, numbers, rides, two_legs};
use books::PlanBook;
use std::test::Fail;

#[test]
fn single_legs(rt: HostRuntime) -> Result<(), Fail> {
    let mut book = PlanBook::single_leg();
    numbers(&rt, &book, 0, 1, 1);
    files(
        &rt,
        &mut book,
        &[
            (64, along_x(0, 5, 0, 5), 2),
            (0, along_x(0, 5, 0, 5), 8),
            (0, two_legs(0, 9, 1, 4, 10), 8),
            (0, two_legs(0, 1, 1, 4, 10), 9),
            (63, along_x(100, 0, -3, 60), 0),
            (62, along_x(8, 0, 1, 2), 0),
            (62, along_x(7, 2, 1, 3), 0),
        ],
    );
    legs(
        &rt,
        &book,
        &[
            (0, 0, 1, (0, 0), None),
            (62, 0, 1, (7, 0), Some(2)),
            (63, 0, 1, (100, -3), Some(60)),
            (63, 60, 1, (-80, 0), None),
        ],
    )
}

#[test]
fn itineraries(rt: HostRuntime) -> Result<(), Fail> {
    let mut book = PlanBook::itinerary();
    numbers(&rt, &book, 0, 1, 8);
    files(&rt, &mut book, &[(0, two_legs(0, 1, 1, 4, 10), 0)]);
    rides(
        &rt,
        &mut book,
        &[
            (64, 0, None, 2),
            (0, 0, Some(64), 2),
            (5, 0, Some(5), 3),
            (5, 0, Some(6), 10),
            (5, 0, None, 10),
        ],
    );
    legs(
        &rt,
        &book,
        &[
            (0, 0, 1, (0, 0), Some(1)),
            (0, 7, 2, (-1, 1), Some(4)),
            (0, 4, 1, (3, 0), Some(10)),
            (0, 10, 1, (3, 0), None),
        ],
    )?;
    follows(&rt, &book, &[(3, 3, true), (3, 4, false)]);
    Ok(())
}
