//! Answers of commands that move the clock, and of `room` and `cues`.
ghost use Rattle.std.specs.Prelude.{◌≡◌, ◌++◌, string_bytes, codes, decimal, OnOk};
ghost use Rattle.times.specs.Of.{time_of};
ghost use Rattle.times.specs.Texts.{fraction_text};

use std::fmt;
use times::Time;

/// `WORD: quiet TIME`.
pub fn quiet(out: &mut String, word: &str, time: Time) -> fmt::Result
    ensures { OnOk result (string_bytes out.new ≡ string_bytes out.old ++ (word.now ++ (codes ": quiet " ++ (fraction_text (time_of time) ++ codes "\n")))) }
{
    Ok(write!(out, "{word}: quiet {time}\n")?)
}

/// `set: due S to G`.
pub fn due(out: &mut String, from: Time, to: Time) -> fmt::Result
    ensures { OnOk result (string_bytes out.new ≡ string_bytes out.old ++ (codes "set: due " ++ (fraction_text (time_of from) ++ (codes " to " ++ (fraction_text (time_of to) ++ codes "\n"))))) }
{
    Ok(write!(out, "set: due {from} to {to}\n")?)
}

/// `room: SLIP PAGE LIST`.
pub fn room(out: &mut String, slip: u32, page: u32, list: u32) -> fmt::Result
    ensures { OnOk result (string_bytes out.new ≡ string_bytes out.old ++ (codes "room: " ++ (decimal slip ++ (codes " " ++ (decimal page ++ (codes " " ++ (decimal list ++ codes "\n"))))))) }
{
    Ok(write!(out, "room: {slip} {page} {list}\n")?)
}

/// `cues: K`.
pub fn cues(out: &mut String, count: usize) -> fmt::Result
    ensures { OnOk result (string_bytes out.new ≡ string_bytes out.old ++ (codes "cues: " ++ (decimal count ++ codes "\n"))) }
{
    Ok(write!(out, "cues: {count}\n")?)
}

/// `  TICK C`.
pub fn cue(out: &mut String, tick: u16, craft: u8) -> fmt::Result
    ensures { OnOk result (string_bytes out.new ≡ string_bytes out.old ++ (codes "  " ++ (decimal tick ++ (codes " " ++ (decimal craft ++ codes "\n"))))) }
{
    Ok(write!(out, "  {tick} {craft}\n")?)
}
