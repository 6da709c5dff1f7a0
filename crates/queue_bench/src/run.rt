//! Which run is done.
use crate::draw::Draw;

/// A run: the number that its draws begin from, how many slots it fills, and how many rounds it takes.
#[derive(Clone, Copy, Drop)]
pub struct Run {
    pub from: u64,
    pub slots: u16,
    pub rounds: u32,
}

impl Run {
    /// The run's draws.
    pub(crate) fn draw(self) -> Draw {
        Draw::new(self.from)
    }
}
