//! The hall's own tables: records of craft, bits of pairs, and the numbers of the certificates that stand.
#![tactic(auto)]

pub mod craft;
pub mod tables;

pub use craft::CraftRecord;
pub use tables::Tables;
