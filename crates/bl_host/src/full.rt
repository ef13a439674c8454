//! That no line will ever fit in the trail any more.
ghost use Rattle.std.specs.Prelude.{◌≡◌, ◌↔◌, IsSome};
ghost use Rattle.bl_quota.specs.Quotas.{IsFull, IsQuota, WasQuota, limit_of};

use bl_core::machine::Core;
use bl_quota::quota::Quota;
use std::sync::atomic::{AtomicBool, Ordering};

/// That no line will ever fit in the trail any more, not even the least one. Only a quota that finds it so gives it.
#[derive(Drop)]
pub(crate) struct TrailIsFull {
    _found: (),
}

impl TrailIsFull {
    /// Asks a quota, of a core that it is of, or what has come of it since.
    pub(crate) fn find(quota: &mut Quota, core: &Core) -> Option<TrailIsFull>
        ensures full { WasQuota quota.old core.now → IsSome result ↔ IsFull (limit_of quota.old) core.now }
        ensures quota { WasQuota quota.old core.now → IsQuota quota.new core.now }
        ensures limit { limit_of quota.new ≡ limit_of quota.old }
    {
        if quota.is_full(core) {
            Some(TrailIsFull { _found: () })
        } else {
            None
        }
    }
}

/// Whether the trail was found to be full: then it stays so.
#[derive(Drop)]
pub(crate) struct FullMark {
    found: AtomicBool,
}

impl FullMark {
    /// It was not.
    pub(crate) fn new() -> FullMark {
        FullMark {
            found: AtomicBool::new(false),
        }
    }

    /// Notes that it was.
    pub(crate) fn note(&self, full: TrailIsFull) {
        let TrailIsFull { _found } = full;
        self.found.store(true, Ordering::SeqCst);
    }

    /// Whether it was.
    pub(crate) fn is_noted(&self) -> bool {
        self.found.load(Ordering::SeqCst)
    }
}
