//! Reading a page back.
ghost use Rattle.std.specs.Prelude.{◌≡◌, Some, codes};
ghost use Rattle.rules.specs.Pages.{report_in};
ghost use Rattle.pages.specs.Of.{record_in, next_in, left_after, answer_of};

use crate::report::{Kind, Record, UnknownTag};
use crate::write::{LENGTH, RECORD};
use std::error::Error;
use std::fmt;

/// What is left of the bytes does not begin with a whole record of a page.
#[derive(Clone, Copy, PartialEq, Eq, Debug)]
pub struct Damaged;

/// Reads the records of a page, one after another.
#[derive(Drop)]
pub struct Reader<'a> {
    /// The bytes that are not yet read.
    rest: &'a [u8],
}

impl fmt::Display for Damaged {
    ghost output = { λ _. Some (codes "no whole record of a page") };

    fn fmt<W: fmt::Write>(&self, f: &mut fmt::Formatter<W>) -> fmt::Result {
        f.write_str("no whole record of a page")
    }
}

impl Error for Damaged {}

/// The record that the bytes are: a tag of a page, the length 8, and the 8 bytes.
impl TryFrom<&[u8; RECORD]> for Record {
    type Error = Damaged;

    ghost try_from_gives = { λ bytes made. record_in made ≡ report_in bytes.now };

    fn try_from(bytes: &[u8; RECORD]) -> Result<Record, Damaged> {
        let [tag, high, low, lower, higher, n3, n2, n1, n0, d1, d0] = *bytes;
        if u16::from_be_bytes([high, low]) != LENGTH {
            return Err(Damaged);
        }
        Ok(Record {
            kind: Kind::try_from(tag)?,
            lower,
            higher,
            n: u32::from_be_bytes([n3, n2, n1, n0]),
            d: u16::from_be_bytes([d1, d0]),
        })
    }
}

impl From<UnknownTag> for Damaged {
    fn from(_: UnknownTag) -> Damaged {
        Damaged
    }
}

impl<'a> Reader<'a> {
    /// A reader at the start of a page's bytes.
    pub fn new(bytes: &'a [u8]) -> Reader<'a>
        ensures { result.rest.now ≡ bytes.now }
    {
        Reader { rest: bytes }
    }

    /// The next record, or none at the end of the bytes. Where what is left does not begin with a whole record of a page,
    /// that is told and nothing is passed over.
    // No plainer as an `Iterator` of results: at damage the same answer comes again and again, so a `for` over it would not end.
    pub fn next(&mut self) -> Result<Option<Record>, Damaged>
        ensures told { answer_of result ≡ next_in self.old.rest.now }
        ensures left { self.new.rest.now ≡ left_after (next_in self.old.rest.now) self.old.rest.now }
    {
        if self.rest.is_empty() {
            return Ok(None);
        }
        let (first, rest) = self.rest.split_first_chunk().ok_or(Damaged)?;
        let record = Record::try_from(first)?;
        self.rest = rest;
        Ok(Some(record))
    }
}
