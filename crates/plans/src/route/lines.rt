//! The line of a route at a tick.
ghost use Rattle.std.specs.Prelude.{◌≡◌, ◌<◌, ◌≤◌, true, length, unsigned_abs};
ghost use Rattle.rules.specs.Paths.{line_at};
ghost use Rattle.rules.specs.Plans.{legs_right};
ghost use Rattle.fleet.specs.Axes.{axis_of};
ghost use Rattle.plans.specs.Of.{legs_of};
ghost use Rattle.plans.specs.Lines.{line_of, plus, leg_line, legs_line};
ghost use Rattle.plans.specs.Routes.{route_path};

use crate::lines::add;
use crate::plan::Leg;
use crate::route::Route;
use fleet::Axis;

impl Route {
    /// The line (A, V) on which the path runs on an axis from tick i to the next.
    pub(crate) fn line(&self, axis: Axis, i: u16) -> (i32, i32)
        ensures { line_of result ≡ line_at (route_path self.now) (axis_of axis) i }
    {
        let start = (self.plan.start.on(axis), 0);
        add(
            start,
            legs_line(self.plan.kept_legs(), self.plan.end, axis, i),
        )
    }
}

/// What legs up to an end tick add to the line on an axis at tick i.
fn legs_line(legs: &[Leg], end: u16, axis: Axis, i: u16) -> (i32, i32)
    requires right { legs_right (legs_of legs.now) end ≡ true }
    requires few { length legs.now ≤ 8 }
    requires last { end ≤ 50000 }
    ensures value { result ≡ legs_line (legs_of legs.now) end (axis_of axis) i }
    ensures base { unsigned_abs result.0 ≤ 400000000 }
    ensures slope { unsigned_abs result.1 ≤ 8000 }
{
    let mut line = (0, 0);
    let mut until = end;
    for leg in legs.iter().rev() {
        line = add(leg_line(leg.speed.on(axis), leg.start, until, i), line);
        until = leg.start;
    }
    line
}

/// What a leg of speed v between two ticks adds to the line at tick i.
fn leg_line(v: i16, from: u16, to: u16, i: u16) -> (i32, i32)
    requires speed { unsigned_abs v ≤ 1000 }
    requires order { from < to }
    requires last { to ≤ 50000 }
    ensures { result ≡ leg_line v from to i }
{
    if i < from {
        return (0, 0);
    }
    let speed = i32::from(v);
    if i < to {
        return (-(speed * i32::from(from)), speed);
    }
    (speed * i32::from(to - from), 0)
}
