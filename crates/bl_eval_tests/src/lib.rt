//! Tests of what no clause says of grants and evaluations: that each call can succeed, and what the examples say.
#![tactic(auto)]

#[cfg(test)]
mod bodies;
#[cfg(test)]
mod evaluations;
#[cfg(test)]
mod fixtures;
#[cfg(test)]
mod grants;
