//! Gaps between ends, and where they close.
ghost use Rattle.std.specs.Prelude.{◌≡◌, pos, neg_ℤ, ◌≤ℤ◌, ◌-ℤ◌};
ghost use Rattle.rules.specs.Paths.{value};
ghost use Rattle.rules.specs.Boxes.{quotient};
ghost use Rattle.times.specs.Of.{time_of, moment_of};
ghost use Rattle.geometry_laws.specs.Quick.{sided};
ghost use Rattle.geometry.specs.Of.{gap_of, span_of, stamp_told, above_zero, difference};

use crate::gap::Gap;
use crate::span::Span;
use times::{Moment, Time};

/// The moment n / s at the side told, where that is a time.
fn crossing(n: i64, s: i64, after: bool) -> Option<Moment>
    requires { pos 0 ≤ℤ s }
    ensures { stamp_told result ≡ sided after (quotient n s) }
{
    let time = Time::new(u32::try_from(n).ok()?, u16::try_from(s).ok()?).ok()?;
    Some(Moment { time, after })
}

/// How far x is above y.
fn apart(x: i32, y: i32) -> i64
    ensures { result ≡ x -ℤ y }
{
    i64::from(x) - i64::from(y)
}

impl Gap {
    /// How far p's lower end is above q's upper end.
    pub(crate) fn between(p: Span, q: Span) -> Gap
        ensures { gap_of result ≡ difference (span_of p).low (span_of q).high }
    {
        let reach = i64::from(p.down.half) + i64::from(q.up.half);
        Gap {
            a: apart(p.a, q.a) - reach,
            v: apart(p.v, q.v),
        }
    }

    /// The gap at a time, times the time's denominator.
    fn scaled(self, t: Time) -> i64
        ensures { result ≡ value (gap_of self) (time_of t) }
    {
        self.a * i64::from(t.denominator()) + self.v * i64::from(t.numerator())
    }

    /// Whether the gap is above zero at a moment; just after a time one that is zero and rises is.
    pub(crate) fn open(self, m: Moment) -> bool
        ensures { result ≡ above_zero (gap_of self) (moment_of m) }
    {
        let x = self.scaled(m.time);
        x > 0 || m.after && x == 0 && self.v > 0
    }

    /// When the gap is zero, at the side told, where that is a time.
    pub(crate) fn closing(self, after: bool) -> Option<Moment>
        ensures { stamp_told result ≡ sided after (quotient (neg_ℤ (gap_of self).base) (gap_of self).slope) }
    {
        if self.v < 0 {
            crossing(self.a, -self.v, after)
        } else {
            crossing(-self.a, self.v, after)
        }
    }
}
