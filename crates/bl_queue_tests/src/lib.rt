//! Tests of what no clause says of queues: that each call can succeed, and what the examples say.
#![tactic(auto)]

#[cfg(test)]
mod many;
#[cfg(test)]
mod starts;
