//! The routes of the craft.
ghost use Rattle.std.specs.Prelude.{◌≡◌, length};

mod table;

use plans::Route;

/// The route of each craft, if it has one.
#[derive(Drop)]
pub struct Routes {
    table: [Option<Route>; 64],
    ghost size: { length table ≡ 64 },
}
