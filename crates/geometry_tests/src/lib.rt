//! Hand-worked cases of overlap and first wrong moments.
#![tactic(auto)]

#[cfg(test)]
mod tests;
