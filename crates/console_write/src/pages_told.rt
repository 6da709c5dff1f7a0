//! The answer of a run: its code, steps and lines, the page in hexadecimal, and its records in words.
ghost use Rattle.std.specs.Prelude.{◌≡◌, ◌++◌, Some, string_bytes, codes, decimal, OnOk};
ghost use Rattle.pages.specs.Of.{record_told};
ghost use Rattle.console_write.specs.Texts.{lines_text};
ghost use Rattle.console_write.specs.Pages.{hex_text, records_text, report_text};

use crate::values::{Fraction, Lines};
use pages::{Reader, Record};
use std::fmt;

/// A page's bytes in hexadecimal, after one space where there are any.
#[derive(Clone, Copy)]
struct Hex<'a>(&'a [u8]);

impl fmt::Display for Hex<'_> {
    ghost output = { λ h. Some (hex_text h.0.now) };

    fn fmt<W: fmt::Write>(&self, f: &mut fmt::Formatter<W>) -> fmt::Result {
        if !self.0.is_empty() {
            write!(f, " ")?;
        }
        for &byte in self.0 {
            write!(f, "{byte:02x}")?;
        }
        Ok(())
    }
}

/// A record in words: `  meeting A B at TIME` or `  parting A B at TIME`.
#[derive(Clone, Copy)]
struct RecordLine(Record);

impl fmt::Display for RecordLine {
    ghost output = { λ l. Some (report_text (record_told l.0)) };

    fn fmt<W: fmt::Write>(&self, f: &mut fmt::Formatter<W>) -> fmt::Result {
        let record = self.0;
        let (kind, lower, higher) = (record.kind, record.lower, record.higher);
        let time = Fraction {
            n: record.n,
            d: record.d,
        };
        write!(f, "  {kind} {lower} {higher} at {time}\n")
    }
}

/// A line for each record of a page, up to its end or to bytes that are no record.
#[derive(Clone, Copy)]
struct Records<'a>(&'a [u8]);

impl fmt::Display for Records<'_> {
    ghost output = { λ r. Some (records_text r.0.now) };

    fn fmt<W: fmt::Write>(&self, f: &mut fmt::Formatter<W>) -> fmt::Result {
        let mut reader = Reader::new(self.0);
        'records: while let Ok(Some(record)) = reader.next() {
            write!(f, "{}", RecordLine(record))?;
        }
        Ok(())
    }
}

/// `run: ended CODE; steps K; lines L ..; page HEX`, and a line for each record of the page.
pub fn ended(out: &mut String, code: u8, steps: u32, slip: &[u32], page: &[u8]) -> fmt::Result
    ensures { OnOk result (string_bytes out.new ≡ string_bytes out.old ++ (codes "run: ended " ++ (decimal code ++ (codes "; steps " ++ (decimal steps ++ (codes "; " ++ (codes "lines" ++ lines_text slip.now ++ (codes "; page" ++ (hex_text page.now ++ (codes "\n" ++ records_text page.now)))))))))) }
{
    let (lines, bytes, records) = (Lines(slip), Hex(page), Records(page));
    Ok(write!(
        out,
        "run: ended {code}; steps {steps}; {lines}; page{bytes}\n{records}"
    )?)
}
