//! What a firing tells of two craft.
ghost use Rattle.std.specs.Prelude.{◌≡◌, Some};
ghost use Rattle.pages.specs.Of.{news_told};
ghost use Rattle.runs.specs.Encounters.{encounter_told, news_of, certificate_at};

use fleet::{Axis, Xyz};
use pages::{Encounter, Kind};
use slots::{axis_at, higher_at, lower_at};

/// What a slot's certificate is of.
// A rule of the project: met, parted or neither is one decision over the certificate's kind, so the kinds keep names of their own.
// No plainer with `Craft`: a definition that names the certificate of any number would carry the proofs that its craft are in range.
#[derive(Clone, Copy)]
pub enum Certificate {
    /// The bit of two craft on an axis, the lower number first.
    Bit(Axis, u8, u8),
    /// A leg; or nothing that tells of two craft, as a slot whose first craft is above its second.
    Leg,
}

/// What the certificate of a slot is of.
pub fn certificate_at(slot: u16) -> Certificate
    ensures { result ≡ certificate_at slot }
{
    if slot >= 12288 || lower_at(slot) > higher_at(slot) {
        return Certificate::Leg;
    }
    Certificate::Bit(axis_at(slot), lower_at(slot).number, higher_at(slot).number)
}

/// What is told of two craft.
fn told(kind: Kind, lower: u8, higher: u8) -> Option<Encounter>
    ensures { encounter_told result ≡ Some (news_told kind lower higher) }
{
    Some(Encounter {
        kind,
        lower,
        higher,
    })
}

/// What a firing tells, by the certificate, the side of its moment and the bits on x, y and z before it.
/// A bit's firing changes that bit and no other: two craft part where all three were set, and meet where the other two are.
/// Bits are set at side 0 and cleared at side 1; the bits alone tell which of these it is, so every side is taken alike.
pub fn decide(certificate: Certificate, after: bool, bits: Xyz<bool>) -> Option<Encounter>
    ensures { encounter_told result ≡ news_of certificate bits }
{
    match (certificate, after, bits) {
        (Certificate::Bit(_, c, d), _, Xyz { x, y, z }) if x && y && z => told(Kind::Parting, c, d),
        (Certificate::Bit(Axis::X, c, d), _, Xyz { y, z, .. }) if y && z => told(
            Kind::Meeting,
            c,
            d,
        ),
        (Certificate::Bit(Axis::Y, c, d), _, Xyz { x, z, .. }) if x && z => told(
            Kind::Meeting,
            c,
            d,
        ),
        (Certificate::Bit(Axis::Z, c, d), _, Xyz { x, y, .. }) if x && y => told(
            Kind::Meeting,
            c,
            d,
        ),
        (_, _, _) => None,
    }
}
