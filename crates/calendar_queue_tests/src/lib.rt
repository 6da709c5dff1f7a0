//! Tests of the calendar queue: years of the calendar apart, one bucket, moves between buckets, and the same answers as the heap.
#![tactic(auto)]

#[cfg(test)]
mod tests;
