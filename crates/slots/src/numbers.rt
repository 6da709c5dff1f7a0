//! The numbers of certificates.
ghost use Rattle.std.specs.Prelude.{◌≤◌};

mod make;

/// The number of a certificate: there are at most 20,000,000.
#[derive(Clone, Copy, PartialEq, Eq, Debug)]
pub struct Number {
    pub value: u32,
    ghost few: { value ≤ 20000000 },
}
