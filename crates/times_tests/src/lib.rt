//! Tests of exact time: reduction, bounds, orders and the refusals' numbers.
#![tactic(auto)]

#[cfg(test)]
mod tests;
