//! Queues over cowns: which entries have to wait for which earlier ones, and which may start.
#![tactic(auto)]

pub mod claim;
pub(crate) mod cown;
pub(crate) mod cowns;
pub mod entry;
pub mod laws;
pub(crate) mod link;
pub(crate) mod numbers;
pub mod queues;
pub(crate) mod roster;
