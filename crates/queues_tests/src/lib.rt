//! Tests of the queues: equal moments, sides, replacing, removing, refilling, all slots full, refusals.
#![tactic(auto)]

#[cfg(test)]
mod tests;
