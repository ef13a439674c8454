//! What a turn does between the start and the end of an entry that runs.

/// What a turn does after the start of an entry that runs and before its end, while the gate is free.
pub trait Pause {
    /// Called in the turn of the entry `n`, for each entry that runs.
    fn between(&self, n: u32);
}

/// Goes on at once.
#[derive(Clone, Copy, Debug)]
pub struct NoPause;

impl Pause for NoPause {
    fn between(&self, n: u32) {
        let _ = n;
    }
}
