//! The console's answers, written to a text.
#![tactic(auto)]

ghost use Rattle.std.specs.Prelude.{◌≡◌, ◌++◌, string_bytes, codes, decimal, OnOk};

pub mod clock;
pub mod pages_told;
pub mod questions;
pub mod slips;
pub mod stops;
mod values;

use std::fmt;
pub use values::{Fraction, Lines};

/// `line K: cannot read`.
pub fn cannot_read(out: &mut String, line: u64) -> fmt::Result
    ensures { OnOk result (string_bytes out.new ≡ string_bytes out.old ++ (codes "line " ++ (decimal line ++ codes ": cannot read\n"))) }
{
    Ok(write!(out, "line {line}: cannot read\n")?)
}
