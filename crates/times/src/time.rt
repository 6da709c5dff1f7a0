//! Times: fractions of a tick in least terms, from 0 to 50,000.
ghost use Rattle.std.specs.Prelude.{◌*◌, ◌<◌, ◌≤◌};
ghost use Rattle.rules.specs.Fractions.{Coprime};

mod gcd;
mod make;
mod order;
mod parts;
mod text;

/// The time n / d in ticks, in least terms, with d from 1 to 16,000 and a value from 0 to 50,000.
#[derive(Clone, Copy, PartialEq, Eq, Debug)]
pub struct Time {
    n: u32,
    d: u16,
    ghost positive: { 0 < d },
    ghost small: { d ≤ 16000 },
    ghost inside: { n ≤ 50000 * d },
    ghost least: { Coprime n d },
}
