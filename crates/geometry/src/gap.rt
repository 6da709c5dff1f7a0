//! How far one end is above another.
ghost use Rattle.std.specs.Prelude.{◌≤◌, unsigned_abs};

pub(crate) mod read;

/// The difference a + v·t of two ends of spans, wide enough for any two.
#[derive(Clone, Copy)]
pub(crate) struct Gap {
    a: i64,
    v: i64,
    ghost near: { unsigned_abs a ≤ 4294970000 },
    ghost slow: { unsigned_abs v ≤ 4294967295 },
}
