//! Who says which lines may be admitted.
ghost use Rattle.std.specs.Prelude.{◌≡◌, ℕ, Option, Some, None};
ghost use Rattle.bl_order.specs.Machine.{State};
ghost use Rattle.bl_sizes.specs.Counts.{LeadsOn};
ghost use Rattle.bl_work.specs.Readable.{IsReadable};
ghost use Rattle.bl_quota.specs.Leading.{quota_goes_on};
ghost use Rattle.bl_quota.specs.Quotas.{IsAllowed, WasQuota, limit_of};

use crate::quota::{Fit, Quota};
use bl_core::machine::Core;
use bl_work::work::Work;

/// What says which lines may be admitted.
pub trait Asks {
    /// How many bytes the text of the trail may have, where that is bounded.
    ghost bound: { Self → Option ℕ };

    /// What it counts is of a state from which the run has gone on to this one.
    ghost was: { Self → State → Type 0 };

    /// Whether a line may be admitted with this work, which some text reads as by the core's names. It takes no memory.
    fn asks(&mut self, core: &Core, work: &Work) -> Fit
        requires { IsReadable core.now.setup.names work.now }
        ensures fit { was self.old core.now → IsAllowed (bound self.old) core.now work.now result }
        ensures was { was self.old core.now → was self.new core.now }
        ensures bound { bound self.new ≡ bound self.old };

    /// What it counts stays right while the run goes on.
    ghost goes_on: { (quota : Self) (x y : State) → was quota x → LeadsOn x y → was quota y };
}

/// Nobody: each line may be admitted.
#[derive(Drop)]
pub struct NoQuota;

impl Asks for NoQuota {
    ghost bound = { λ _. None };

    ghost was = { λ _ _. Unit {0} };

    ghost goes_on = { λ _ _ _ _ _. tt };

    fn asks(&mut self, core: &Core, work: &Work) -> Fit {
        // the contract alone speaks of them
        let _ = core;
        let _ = work;
        Fit::Now
    }
}

impl Asks for Quota {
    ghost bound = { λ quota. Some (limit_of quota) };

    ghost was = { WasQuota };

    ghost goes_on = { quota_goes_on };

    fn asks(&mut self, core: &Core, work: &Work) -> Fit {
        // asked for the proof alone: a trail leads to the core's state
        let _policy = core.policy();
        Quota::asks(self, core, work)
    }
}
