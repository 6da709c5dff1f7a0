//! Sums of legs.
ghost use Rattle.std.specs.Prelude.{◌≡◌};
ghost use Rattle.fleet.specs.Axes.{part};
ghost use Rattle.plans.specs.Lines.{plus};
ghost use Rattle.books.specs.Breaks.{earlier};
ghost use Rattle.riding.specs.Legs.{added_legs, SmallLegs};

use fleet::{Axis, Xyz};
use plans::LegAnswer;
use plans::lines::add;

/// The leg of two paths added.
pub(crate) fn sum(l: LegAnswer, m: LegAnswer) -> LegAnswer
    requires { (SmallLegs l) × (SmallLegs m) }
    ensures { result ≡ added_legs l m }
{
    LegAnswer {
        lines: Xyz::from_fn(|axis| line(l, m, axis)),
        next: sooner(l.next, m.next),
    }
}

/// The sum of two paths' lines on an axis.
fn line(l: LegAnswer, m: LegAnswer, axis: Axis) -> (i32, i32)
    requires { (SmallLegs l) × (SmallLegs m) }
    ensures { result ≡ plus (part l.lines axis) (part m.lines axis) }
{
    add(l.lines.on(axis), m.lines.on(axis))
}

/// The earlier of two breaks, where there are any.
fn sooner(a: Option<u16>, b: Option<u16>) -> Option<u16>
    ensures { result ≡ earlier a b }
{
    match (a, b) {
        (Some(x), Some(y)) => Some(x.min(y)),
        _ => a.or(b),
    }
}
