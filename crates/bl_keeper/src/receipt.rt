//! What shows that a hall was kept.
use bl_hall::hall::Hall;
use std::snapshot::Snapshot;

/// What is given for bytes that are to be written. For proofs: it says nothing when it runs.
#[derive(Drop)]
pub enum Receipt {
    /// All that had happened in this hall was kept. Many may be shown the snapshot that was taken of it.
    Kept(Snapshot<Snapshot<Hall>>),
    /// Nothing is kept before the end of the run.
    Nothing,
}
