//! Entries: a slot with its moment.
use crate::slot::Slot;
use times::Moment;

/// A slot with its moment, in the order of the moments, and of equal moments in that of the slots.
#[derive(Clone, Copy, PartialEq, Eq, PartialOrd, Ord, Debug)]
pub struct Entry {
    pub moment: Moment,
    pub slot: Slot,
}
