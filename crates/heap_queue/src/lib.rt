//! A queue as a binary heap, with an index from slots to places: first costs one read, putting and removing at most the heap's depth.
#![tactic(auto)]

pub mod queue;
mod tree;

pub use queue::HeapQueue;
