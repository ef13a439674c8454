//! The versions of trails, by which runs are judged.

/// By which rules a run is judged.
#[derive(Clone, Copy, PartialEq, Eq, Debug)]
pub enum Version {
    /// The first one: a child carries nothing, and may alter what its subject's current level lets it alter; each document is
    /// present, and no rule creates or deletes one.
    One,
    /// The present one: a child carries the levels at which its parents ran, and alters nothing below them; documents come and
    /// go. Every run over a setup that was read is judged so.
    Two,
}
