//! The tests of `bl_serving` and `bl_host`, and of trail files: sessions over TCP, and what a run leaves.
//!
//!     base        a run of `serve` with clients beside it
//!     overlaps    two sessions that run side by side
//!     ends        sessions that end early, and trails that cannot be kept
//!     trails      trail files
//!     failing     a file system whose files fail
//!     live        what a server tells while it runs
//!     unkept      a server that can keep no more
//!     held        a file whose next sync is held until a session has gone on
//!     desks       sessions of one thread, of which one waits for the journal
#![tactic(auto)]

#[cfg(test)]
mod base;
#[cfg(test)]
mod desks;
#[cfg(test)]
mod ends;
#[cfg(test)]
mod failing;
#[cfg(test)]
mod held;
#[cfg(test)]
mod live;
#[cfg(test)]
mod overlaps;
#[cfg(test)]
mod trails;
#[cfg(test)]
mod unkept;
