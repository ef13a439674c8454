//! What an entry holds while it runs.

/// How many claims an entry has at most (own choice).
pub const MOST_CLAIMS: usize = 9;

/// A cown that an entry holds while it runs, shared or alone.
#[derive(Clone, Copy, Debug, PartialEq, Eq)]
pub struct Claim {
    /// The number of the cown.
    pub cown: u32,
    /// Whether entries that share the cown too may run beside it.
    pub shared: bool,
}
