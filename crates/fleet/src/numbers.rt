//! The numbers of craft.
ghost use Rattle.std.specs.Prelude.{◌≡◌, ◌<◌};

mod make;

/// A craft, by its number from 0 to 63.
#[derive(Clone, Copy, PartialEq, Eq, PartialOrd, Ord, Debug)]
pub struct Craft {
    pub number: u8,
    ghost inside: { number < 64 },
}
