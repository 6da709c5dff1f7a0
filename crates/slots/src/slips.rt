//! Slips, on which lines are written one after another.

mod make;

/// A slip of lines, and how many of them are used.
#[derive(Drop)]
pub struct Slip<'a> {
    pub lines: &'a mut [u32],
    pub used: usize,
}
