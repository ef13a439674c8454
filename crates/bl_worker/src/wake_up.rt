//! How threads are woken that wait at a bell: only those may sleep for whom nothing has come.

use crate::count::Quiet;
use std::sync::{Condvar, MutexGuard, Wait};

/// What wakes threads that wait for the same.
#[derive(Drop)]
pub(crate) struct WakeUp {
    sent: Condvar,
}

impl WakeUp {
    /// None was sent.
    pub(crate) fn new() -> WakeUp {
        WakeUp {
            sent: Condvar::new(),
        }
    }

    /// Sleeps with the lock free until one is sent, or for a shorter time, and has the lock again.
    pub(crate) fn wait<'a, R: Wait>(
        &self,
        rt: &R,
        closed: MutexGuard<'a, bool>,
        quiet: Quiet,
    ) -> MutexGuard<'a, bool> {
        let _ = quiet;
        self.sent.wait(rt, closed)
    }

    /// Sends one to all.
    pub(crate) fn send(&self) {
        self.sent.notify_all();
    }
}
