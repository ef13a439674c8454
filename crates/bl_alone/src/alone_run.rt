//! What a run of `alone` is asked for.
ghost use Rattle.std.specs.Prelude.{◌≤◌};

use std::alloc::Global;

/// What a run was asked for: where memory comes from, and the weight of the lines that are admitted at most, 1 to
/// 100,000.
#[derive(Clone, Copy)]
pub struct AloneRun {
    pub alloc: Global,
    pub limit: u32,
    pub ghost limited: { (1 ≤ limit) × (limit ≤ 100000) },
}
