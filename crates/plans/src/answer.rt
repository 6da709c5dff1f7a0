//! Answers to the leg question.
ghost use Rattle.std.specs.Prelude.{◌≡◌};
ghost use Rattle.rules.specs.Fractions.{Fraction};
ghost use Rattle.rules.specs.Paths.{standing};
ghost use Rattle.plans.specs.Routes.{answer_of, leg_asked};

use fleet::Xyz;

/// The line A + V × t of a path on each axis, as (A, V), and the path's first break after the time asked for, if any.
#[derive(Clone, Copy, PartialEq, Eq, Debug)]
pub struct LegAnswer {
    pub lines: Xyz<(i32, i32)>,
    pub next: Option<u16>,
}

impl LegAnswer {
    /// The answer for a craft with no plan, at any time: it stands at 0, 0, 0 with no break.
    pub fn unplanned() -> LegAnswer
        ensures { (t : Fraction) → answer_of result ≡ leg_asked standing t }
    {
        LegAnswer {
            lines: Xyz {
                x: (0, 0),
                y: (0, 0),
                z: (0, 0),
            },
            next: None,
        }
    }
}
