//! What holds of paths, as theorems.
ghost use Rattle.plans.specs.Laws.{LineHolds, FirstAfterLeast, PlansKept, StandingKept};

/// The line of a leg gives the path's position at every fraction until the next break, both ends included,
/// and the first break after a time is the least one: for every path whose slope changes only at break ticks.
pub fn paths_stand() -> u8
    ensures line { LineHolds }
    ensures first { FirstAfterLeast }
{
    0
}

/// The path of a plan that keeps its rules changes its slope only at break ticks, stands after tick 50,000,
/// and lies within the bounds of positions, bases and slopes; so does the path of a craft that stands.
pub fn plans_stand() -> u8
    ensures plans { PlansKept }
    ensures standing { StandingKept }
{
    0
}
