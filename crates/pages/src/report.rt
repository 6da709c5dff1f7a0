//! What a page tells.
ghost use Rattle.std.specs.Prelude.{◌≡◌, ◌++◌, Some, codes, decimal};
ghost use Rattle.pages.specs.Kinds.{tag_of, kind_made, word_of};
ghost use Rattle.pages.specs.Encounters.{told_at};

use std::error::Error;
use std::fmt;
use times::Time;

/// Whether two craft met or parted.
#[derive(Clone, Copy, PartialEq, Eq, Debug)]
pub enum Kind {
    Meeting,
    Parting,
}

/// A tag that no record of a page begins with.
#[derive(Clone, Copy, PartialEq, Eq, Debug)]
pub struct UnknownTag(pub u8);

/// The tag of a kind's records: 1 is a meeting, 2 a parting.
impl From<Kind> for u8 {
    ghost from_gives = { λ kind tag. tag ≡ tag_of kind };

    fn from(kind: Kind) -> u8 {
        match kind {
            Kind::Meeting => 1,
            Kind::Parting => 2,
        }
    }
}

/// The kind that a tag tells.
impl TryFrom<u8> for Kind {
    type Error = UnknownTag;

    ghost try_from_gives = { λ tag made. made ≡ kind_made tag };

    fn try_from(tag: u8) -> Result<Kind, UnknownTag> {
        match tag {
            1 => Ok(Kind::Meeting),
            2 => Ok(Kind::Parting),
            _ => Err(UnknownTag(tag)),
        }
    }
}

impl fmt::Display for Kind {
    ghost output = { λ kind. Some (word_of kind) };

    fn fmt<W: fmt::Write>(&self, f: &mut fmt::Formatter<W>) -> fmt::Result {
        f.write_str(match self {
            Kind::Meeting => "meeting",
            Kind::Parting => "parting",
        })
    }
}

impl fmt::Display for UnknownTag {
    ghost output = { λ unknown. Some (codes "no record of a page has the tag " ++ decimal unknown.0) };

    fn fmt<W: fmt::Write>(&self, f: &mut fmt::Formatter<W>) -> fmt::Result {
        write!(f, "no record of a page has the tag {}", self.0)
    }
}

impl Error for UnknownTag {}

/// Two craft that met or parted, the lower number first.
#[derive(Clone, Copy, PartialEq, Eq, Debug)]
pub struct Encounter {
    pub kind: Kind,
    pub lower: u8,
    pub higher: u8,
}

/// A meeting or parting of two craft, with its time.
// No plainer: an `Encounter` beside the time, since each caller reads or writes all four fields.
#[derive(Clone, Copy, PartialEq, Eq, Debug)]
pub struct Report {
    pub kind: Kind,
    pub lower: u8,
    pub higher: u8,
    pub time: Time,
}

/// A record as its bytes have it: the time is n / d, which need not be in least terms.
// No plainer: n and d as a type of their own, or all but the time as an `Encounter`, since each caller reads the five fields at once.
#[derive(Clone, Copy, PartialEq, Eq, Debug)]
pub struct Record {
    pub kind: Kind,
    pub lower: u8,
    pub higher: u8,
    pub n: u32,
    pub d: u16,
}

impl Encounter {
    /// The report of it, at a time.
    pub fn at(self, time: Time) -> Report
        ensures { result ≡ told_at self time }
    {
        Report {
            kind: self.kind,
            lower: self.lower,
            higher: self.higher,
            time,
        }
    }
}
