//! Whether two spans overlap at a moment, and when a bit that tells so is first wrong.
ghost use Rattle.std.specs.Prelude.{◌≡◌};
ghost use Rattle.rules.specs.Boxes.{behind, overlap, fails};
ghost use Rattle.times.specs.Of.{moment_of};
ghost use Rattle.geometry_laws.specs.Quick.{gaining};
ghost use Rattle.geometry.specs.Of.{span_of, stamp_told};

use crate::gap::Gap;
use crate::span::Span;
use std::cmp::Ordering;
use times::Moment;

impl Span {
    /// Whether this one's lower end is behind the other's upper end.
    fn clears(self, other: Span, m: Moment) -> bool
        ensures { result ≡ behind (span_of self).low (span_of other).high (moment_of m) }
    {
        Gap::between(self, other).open(m)
    }

    /// When a right bit is first wrong, where this one moves up against the other: just after its lower end leaves the other's
    /// upper end, or where its upper end comes to the other's lower end.
    fn gains(self, other: Span, bit: bool, from: Moment) -> Option<Moment>
        ensures { stamp_told result ≡ gaining bit (span_of self) (span_of other) (moment_of from) }
    {
        if bit {
            return Gap::between(self, other).closing(true);
        }
        if other.clears(self, from) {
            Gap::between(other, self).closing(false)
        } else {
            None
        }
    }
}

/// Whether the two overlap at a moment: neither lower end is behind the other's upper end.
pub fn overlaps(p: Span, q: Span, m: Moment) -> bool
    ensures { result ≡ overlap (span_of p) (span_of q) (moment_of m) }
{
    !p.clears(q, m) && !q.clears(p, m)
}

/// The first moment, from `from` on and up to time 50,000, at which the bit does not tell whether the two overlap.
pub fn first_wrong(bit: bool, p: Span, q: Span, from: Moment) -> Option<Moment>
    ensures { stamp_told result ≡ fails bit (span_of p) (span_of q) (moment_of from) }
{
    if overlaps(p, q, from) != bit {
        return Some(from);
    }
    match p.v.cmp(&q.v) {
        Ordering::Greater => p.gains(q, bit, from),
        Ordering::Less => q.gains(p, bit, from),
        Ordering::Equal => None,
    }
}
