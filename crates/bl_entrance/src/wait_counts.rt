//! What the sockets of a thread know of its waits.

use std::alloc::{AllocError, Global};
use std::sync::Arc;
use std::sync::atomic::{AtomicU64, Ordering};

/// How often a thread has waited for its sockets, and which of these waits told last of something exceptional: 0 where
/// none did, and the first is 1.
#[derive(Drop)]
struct Counts {
    waits: AtomicU64,
    last_exception: AtomicU64,
}

/// The counts of a thread's waits, about which its sockets ask. Exceptional is that a peer has ended its output, that a
/// socket has failed, and that urgent data has come: each is told once, and may be told before the bytes that came
/// first are read.
#[derive(Drop)]
pub(crate) struct WaitCounts {
    counts: Arc<Counts>,
}

impl WaitCounts {
    /// There was no wait yet. An error comes where memory was refused.
    pub(crate) fn new(alloc: Global) -> Result<WaitCounts, AllocError> {
        let counts = Counts {
            waits: AtomicU64::new(0),
            last_exception: AtomicU64::new(0),
        };
        Ok(WaitCounts {
            counts: Arc::new(alloc, counts)?,
        })
    }

    /// The same counts, for a socket. An error comes where there are too many.
    pub(crate) fn share(&self) -> Result<WaitCounts, AllocError> {
        Ok(WaitCounts {
            counts: Arc::try_clone(&self.counts)?,
        })
    }

    /// How many waits there were.
    pub(crate) fn count(&self) -> u64 {
        self.counts.waits.load(Ordering::SeqCst)
    }

    /// Which of them told last of something exceptional; 0 where none did.
    pub(crate) fn last_exception(&self) -> u64 {
        self.counts.last_exception.load(Ordering::SeqCst)
    }

    /// Counts a wait, which told of something exceptional or did not.
    pub(crate) fn add(&self, exceptional: bool) {
        let before = self.counts.waits.fetch_add(1, Ordering::SeqCst);
        if exceptional {
            let count = before.wrapping_add(1);
            self.counts.last_exception.store(count, Ordering::SeqCst);
        }
    }
}
