//! Answers of a flight book, told as text.
ghost use Rattle.std.specs.Prelude.{◌≡◌, ◌++◌, string_bytes, OnOk};
ghost use Rattle.books.specs.Told.{refusal_told, follow_told};
ghost use Rattle.rehearsal.specs.Texts.{change_text, follow_text, leg_text};

use console_write::questions;
use console_write::stops::{refused, said, yes_no};
use plans::LegAnswer;
use std::fmt;
use times::Refusal;

/// `WORD: ok`, or `WORD: refused R`.
pub fn change(out: &mut String, word: &str, answer: Result<(), Refusal>) -> fmt::Result
    ensures { OnOk result (string_bytes out.new ≡ string_bytes out.old ++ change_text word.now (refusal_told answer)) }
{
    match answer {
        Ok(()) => said(out, word, "ok"),
        Err(refusal) => refused(out, word, u8::from(refusal)),
    }
}

/// `WORD: yes`, `WORD: no`, or `WORD: refused R`.
pub fn follows(out: &mut String, word: &str, answer: Result<bool, Refusal>) -> fmt::Result
    ensures { OnOk result (string_bytes out.new ≡ string_bytes out.old ++ follow_text word.now (follow_told answer)) }
{
    match answer {
        Ok(yes) => yes_no(out, word, yes),
        Err(refusal) => refused(out, word, u8::from(refusal)),
    }
}

/// `leg: x A V; y A V; z A V; break B`, or `leg: refused R`.
pub fn leg(out: &mut String, answer: Result<LegAnswer, Refusal>) -> fmt::Result
    ensures { OnOk result (string_bytes out.new ≡ string_bytes out.old ++ leg_text answer) }
{
    match answer {
        Ok(leg) => questions::leg(out, leg.lines, leg.next),
        Err(refusal) => refused(out, "leg", u8::from(refusal)),
    }
}
