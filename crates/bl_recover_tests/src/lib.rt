//! The tests of `bl_recover`: journals that a run left in files, closed and refused.
//!
//!     base       a journal that a run left, and its recovery
//!     closed     journals that are closed
//!     refused    journals that are not gone on with, each by its words
//!     failing    a file system whose files fail
//!     syncs      a file system of which one file cannot be synced
//!     unsynced   what cannot be synced is told
#![tactic(auto)]

#[cfg(test)]
mod base;
#[cfg(test)]
mod closed;
#[cfg(test)]
mod failing;
#[cfg(test)]
mod refused;
#[cfg(test)]
mod syncs;
#[cfg(test)]
mod unsynced;
