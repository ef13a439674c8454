//! What a thread works with, and what it does there.
ghost use Rattle.std.specs.Prelude.{◌≡◌};
ghost use Rattle.bl_gate.specs.Gates.{Follows};

use crate::shared::{AskedQuota, SharedQuota};
use bl_gate::gate::Gate;
use bl_gate::pass::Pass;
use bl_horizon::horizon::Horizon;
use bl_keeper::keep::Keep;
use bl_rounds::alarm::Alarms;
use bl_rounds::rounds::{Calls, RoundContext};
use bl_worker::bell::Bell;
use bl_worker::pause::Pause;
use bl_worker::worker::run_worker;
use std::alloc::Global;
use std::sync::Wait;

/// What each thread works with: the runtime, where memory comes from, the gate, the bell at which workers wait and the
/// alarms of the session threads, what its turns do between a start and an end, what keeps all that has happened before
/// a session is told, and the quota of the trail.
#[derive(Drop)]
pub(crate) struct ThreadContext<'a, P, K, T> {
    pub(crate) rt: &'a T,
    pub(crate) alloc: Global,
    pub(crate) gate: &'a Gate,
    pub(crate) bell: &'a Bell,
    pub(crate) alarms: &'a Alarms,
    pub(crate) pause: &'a P,
    pub(crate) keep: &'a K,
    pub(crate) quota: &'a SharedQuota,
}

impl<'a, P: Pause, K: Keep, T: Wait> ThreadContext<'a, P, K, T> {
    /// What calls those who sleep.
    pub(crate) fn calls(&self) -> Calls<'a> {
        Calls {
            alarms: self.alarms,
            bell: self.bell,
        }
    }

    /// What a session thread does its rounds with, which notes there how many events the trail has.
    pub(crate) fn round_context<'h>(&'h self, horizon: &'h Horizon) -> RoundContext<'h, P, T> {
        RoundContext {
            rt: self.rt,
            pause: self.pause,
            calls: self.calls(),
            horizon,
        }
    }

    /// The quota of the trail, as this thread asks it.
    pub(crate) fn asked_quota(&self) -> AskedQuota<'a, T> {
        AskedQuota {
            rt: self.rt,
            shared: self.quota,
        }
    }

    /// Takes turns until the bell is closed and nothing is ready, and gives the pass back. Nothing fails in it.
    pub(crate) fn work(&self, mut pass: Pass) -> Pass
        requires { pass.gate ≡ self.now.gate.now }
        ensures { Follows pass result }
    {
        let _last = run_worker(
            self.rt,
            self.alloc,
            self.gate,
            &mut pass,
            self.pause,
            &self.calls(),
        );
        pass
    }
}
