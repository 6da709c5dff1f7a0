//! The slots of a queue.
ghost use Rattle.std.specs.Prelude.{◌<◌};

mod make;

/// A slot of a queue, by its number from 0 to 12,351.
#[derive(Clone, Copy, PartialEq, Eq, PartialOrd, Ord, Debug)]
pub struct Slot {
    pub number: u16,
    ghost inside: { number < 12352 },
}
