//! The page: what leaves the box. Reports are written as records, and read back.
#![tactic(auto)]

pub mod laws;
pub mod read;
pub mod report;
pub mod write;
pub mod writer;

pub use read::{Damaged, Reader};
pub use report::{Encounter, Kind, Record, Report, UnknownTag};
pub use write::{RECORD, write_report};
pub use writer::PageWriter;
