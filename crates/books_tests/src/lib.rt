//! Tests of flight books and of riding layers.
#![tactic(auto)]

#[cfg(test)]
mod layers;
#[cfg(test)]
mod plain;
#[cfg(test)]
mod shows;
