//! How a run ends.

/// How a run ends: nothing is due (0), too little room for another step's lines or record (15), too few numbers left (16).
#[derive(Clone, Copy, PartialEq, Eq, Debug)]
pub enum Ended {
    NothingDue,
    Room,
    Numbers,
}
