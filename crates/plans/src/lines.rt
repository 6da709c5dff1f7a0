//! Lines A + V × t, as (A, V).
ghost use Rattle.std.specs.Prelude.{◌≡◌, ◌+ℤ◌, FitsSigned};
ghost use Rattle.std.specs.Int.{w32};
ghost use Rattle.plans.specs.Lines.{plus};

/// The sum of two lines. It is public for the crates above, whose paths keep the sums small where no type carries that.
pub fn add(l: (i32, i32), m: (i32, i32)) -> (i32, i32)
    requires base { FitsSigned w32 (l.0 +ℤ m.0) }
    requires slope { FitsSigned w32 (l.1 +ℤ m.1) }
    ensures { result ≡ plus l m }
{
    (l.0 + m.0, l.1 + m.1)
}
