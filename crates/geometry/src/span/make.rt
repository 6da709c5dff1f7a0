//! Making spans, and reading them.
ghost use Rattle.std.specs.Prelude.{◌≡◌};
ghost use Rattle.rules.specs.Boxes.{ends};
ghost use Rattle.fleet.specs.Axes.{axis_of};
ghost use Rattle.geometry.specs.Of.{box_of, line_of, span_of};

use crate::sizes::HalfSizes;
use crate::span::Span;
use fleet::Axis;

impl Span {
    /// The box of these half sizes on an axis, its position on the line (a, v), which is a + v·t.
    // A rule of the project: the leg answer hands (A, V) on as a tuple for each axis.
    pub fn new(line: (i32, i32), sizes: HalfSizes, axis: Axis) -> Span
        ensures { span_of result ≡ ends (box_of sizes) (axis_of axis) (line_of line) }
    {
        let reach = sizes.reach(axis);
        Span {
            a: line.0,
            v: line.1,
            down: reach,
            up: reach,
        }
    }
}
