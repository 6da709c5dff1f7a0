//! Answers with slip lines.
ghost use Rattle.std.specs.Prelude.{◌≡◌, ◌++◌, string_bytes, codes, decimal, OnOk};
ghost use Rattle.times.specs.Of.{time_of};
ghost use Rattle.times.specs.Texts.{fraction_text};
ghost use Rattle.console_write.specs.Texts.{encounter_text, lines_text};

use crate::values::{Lines, News};
use pages::Encounter;
use std::fmt;
use times::Time;

/// `WORD: ok; lines L ..`.
pub fn changed(out: &mut String, word: &str, slip: &[u32]) -> fmt::Result
    ensures { OnOk result (string_bytes out.new ≡ string_bytes out.old ++ (word.now ++ (codes ": ok; " ++ (codes "lines" ++ lines_text slip.now ++ codes "\n")))) }
{
    Ok(write!(out, "{word}: ok; {}\n", Lines(slip))?)
}

/// `step: fired NUMBER at TIME; met A B; lines L ..`.
pub fn fired(
    out: &mut String,
    number: u32,
    time: Time,
    news: Option<Encounter>,
    slip: &[u32],
) -> fmt::Result
    ensures { OnOk result (string_bytes out.new ≡ string_bytes out.old ++ (codes "step: fired " ++ (decimal number ++ (codes " at " ++ (fraction_text (time_of time) ++ (codes "; " ++ (encounter_text news ++ (codes "; " ++ (codes "lines" ++ lines_text slip.now ++ codes "\n"))))))))) }
{
    Ok(write!(
        out,
        "step: fired {number} at {time}; {}; {}\n",
        News(news),
        Lines(slip)
    )?)
}
