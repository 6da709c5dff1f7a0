//! The seats of a layer.
ghost use Rattle.std.specs.Prelude.{◌≡◌, length};

mod table;

use fleet::Craft;

/// The carrier of each craft, if it has a seat.
#[derive(Drop)]
pub struct Seats {
    table: [Option<Craft>; 64],
    ghost size: { length table ≡ 64 },
}
