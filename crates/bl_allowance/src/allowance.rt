//! What is left of a run's limit for lines, and whether the run takes no more.
//!
//! Room is set aside for each line before it is heard, for the heaviest one that there may be. So a line that is heard
//! always fits, whoever else is heard meanwhile. What the words in an `Allowance` say no contract says.
ghost use Rattle.std.specs.Prelude.{◌≡◌, ◌≤◌, ◌<◌, ◌+◌, ◌*◌, IfNone, IfSome};

use std::sync::atomic::{AtomicBool, AtomicU64, Ordering};

/// What a line weighs at most: it has no more behaviours.
pub const MOST_WEIGHT: u64 = 32;

/// What is left of the limit of a run, which its threads share: how much the admitted lines weigh and is set aside
/// together, and whether the run takes no more.
#[derive(Drop)]
pub struct Allowance {
    limit: u64,
    taken: AtomicU64,
    over: AtomicBool,
}

/// How much is taken once room is set aside for so many lines more; `None` where that is more than the limit.
fn with_lines(limit: u64, taken: u64, lines: u32) -> Option<u64>
    ensures some { IfSome result (λ more. (more ≡ taken + lines * 32) × (more ≤ limit)) }
    ensures none { IfNone result (limit < taken + lines * 32) }
{
    let more = taken.checked_add(u64::from(lines) * MOST_WEIGHT)?;
    if more <= limit { Some(more) } else { None }
}

impl Allowance {
    /// Of a run under this limit, whose admitted lines weigh so much already. It takes more.
    pub fn new(limit: u32, admitted: u32) -> Allowance
        ensures { result.limit ≡ limit }
    {
        Allowance {
            limit: u64::from(limit),
            taken: AtomicU64::new(u64::from(admitted)),
            over: AtomicBool::new(false),
        }
    }

    /// Sets room aside for so many lines, and says whether there was as much. Where there was not, nothing is set
    /// aside.
    pub fn set_aside(&self, lines: u32) -> bool {
        let limit = self.limit;
        self.taken
            .fetch_update(
                Ordering::SeqCst,
                Ordering::SeqCst,
                |taken| with_lines(limit, taken, lines),
            )
            .is_ok()
    }

    /// Gives the room back that was set aside for so many lines, once they were heard and admitted or refused, or will
    /// not be heard. So many were set aside and not given back.
    pub fn give_back(&self, lines: u32) {
        let _ = self
            .taken
            .fetch_sub(u64::from(lines) * MOST_WEIGHT, Ordering::SeqCst);
    }

    /// A line is admitted that weighs so much. The room that was set aside for it is given back besides.
    pub fn spend(&self, weight: u32) {
        let _ = self.taken.fetch_add(u64::from(weight), Ordering::SeqCst);
    }

    /// The run takes no more.
    pub fn end(&self) {
        self.over.store(true, Ordering::SeqCst);
    }

    /// Whether the run takes no more.
    pub fn is_over(&self) -> bool {
        self.over.load(Ordering::SeqCst)
    }
}
