//! Tests of flight plans: their rules, and the leg question.
#![tactic(auto)]

#[cfg(test)]
mod tests;
