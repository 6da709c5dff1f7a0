//! Answers of commands that are not carried out.
ghost use Rattle.std.specs.Prelude.{◌≡◌, ◌++◌, string_bytes, codes, decimal, OnOk};
ghost use Rattle.std.specs.Fmt.{AppendsText};
ghost use Rattle.console_write.specs.Texts.{said_after, yes_text};

use crate::values::YesNo;
use std::fmt;
use std::fmt::Display;

/// `WORD: TEXT`.
pub fn said<W: Display + Drop, T: Display + Drop>(out: &mut String, word: W, text: T) -> fmt::Result
    ensures { OnOk result (AppendsText (string_bytes out.old) (string_bytes out.new) (said_after (W.output word) (T.output text))) }
{
    Ok(write!(out, "{word}: {text}\n")?)
}

/// `WORD: refused R`.
pub fn refused(out: &mut String, word: &str, number: u8) -> fmt::Result
    ensures { OnOk result (string_bytes out.new ≡ string_bytes out.old ++ (word.now ++ (codes ": refused " ++ (decimal number ++ codes "\n")))) }
{
    Ok(write!(out, "{word}: refused {number}\n")?)
}

/// `WORD: yes` or `WORD: no`.
pub fn yes_no(out: &mut String, word: &str, yes: bool) -> fmt::Result
    ensures { OnOk result (string_bytes out.new ≡ string_bytes out.old ++ (word.now ++ (codes ": " ++ (yes_text yes ++ codes "\n")))) }
{
    said(out, word, YesNo(yes))
}
