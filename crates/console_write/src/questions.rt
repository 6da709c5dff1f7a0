//! Answers to questions.
ghost use Rattle.std.specs.Prelude.{◌≡◌, ◌++◌, string_bytes, codes, OnOk};
ghost use Rattle.console_write.specs.Texts.{break_words, certificate_after, motion_text, touching_text};

use crate::values::{Break, Failing, Motion, Touching};
use fleet::Xyz;
use std::fmt;
use times::Moment;

/// `list: A-B A-B ..`, or `list: none`.
pub fn listed(out: &mut String, entries: &[u16]) -> fmt::Result
    ensures { OnOk result (string_bytes out.new ≡ string_bytes out.old ++ (codes "list:" ++ (touching_text entries.now ++ codes "\n"))) }
{
    Ok(write!(out, "list:{}\n", Touching(entries))?)
}

/// `certificate: NUMBER at TIME side S`, or `certificate: NUMBER never`: S is 1 just after the time.
pub fn certificate(out: &mut String, number: u32, when: Option<Moment>) -> fmt::Result
    ensures { OnOk result (string_bytes out.new ≡ certificate_after (string_bytes out.old) number when) }
{
    Ok(write!(out, "certificate: {number} {}\n", Failing(when))?)
}

/// `certificate: none`.
pub fn no_certificate(out: &mut String) -> fmt::Result
    ensures { OnOk result (string_bytes out.new ≡ string_bytes out.old ++ codes "certificate: none\n") }
{
    Ok(write!(out, "certificate: none\n")?)
}

/// `leg: x A V; y A V; z A V; break B`, with `break none` where there is none.
pub fn leg(out: &mut String, lines: Xyz<(i32, i32)>, next: Option<u16>) -> fmt::Result
    ensures { OnOk result (string_bytes out.new ≡ string_bytes out.old ++ (codes "leg: x " ++ (motion_text lines.x ++ (codes "; y " ++ (motion_text lines.y ++ (codes "; z " ++ (motion_text lines.z ++ (codes "; " ++ (break_words next ++ codes "\n"))))))))) }
{
    let (x, y, z) = (Motion(lines.x), Motion(lines.y), Motion(lines.z));
    Ok(write!(out, "leg: x {x}; y {y}; z {z}; {}\n", Break(next))?)
}
