//! Tests of the hall's calls.
#![tactic(auto)]

#[cfg(test)]
mod desk;
#[cfg(test)]
mod refusals;
#[cfg(test)]
mod shows;
