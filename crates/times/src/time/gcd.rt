//! Euclid's rule.
ghost use Rattle.std.specs.Prelude.{◌<◌};
ghost use Rattle.rules.specs.Fractions.{IsGcd};

/// The greatest common divisor of m and n, where n is not 0.
pub(super) fn gcd(m: u32, n: u32) -> u32
    requires { 0 < n }
    ensures { IsGcd m n result }
{
    let mut a = m;
    let mut b = n;
    while b != 0 {
        let r = a % b;
        a = b;
        b = r;
    }
    a
}
