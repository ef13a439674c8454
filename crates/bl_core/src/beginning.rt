//! What a core begins with.
ghost use Rattle.std.specs.Prelude.{◌≤◌, IfOk};
ghost use Rattle.bl_queue.specs.Queues.{most_entries};
ghost use Rattle.bl_core.specs.Beginning.{Begins};

use crate::session::Session;
use bl_place::place::Place;
use bl_place::shelf::{Shelf, shelve};
use bl_policy::policy::Policy;
use bl_queue::queues::Queues;
use bl_setup::setup::Setup;
use std::alloc::{AllocError, Global};

/// How many sessions a core opens at most.
pub(crate) const MOST_SESSIONS: usize = 1000;

/// What a core of an empty order has beside its setup: the setup's policy and contents, and room for its sessions and
/// places.
#[derive(Drop)]
pub(crate) struct Beginning {
    pub(crate) sessions: Vec<Session>,
    pub(crate) places: Vec<Place>,
    pub(crate) queues: Queues,
    pub(crate) policy: Policy,
    pub(crate) shelves: Vec<Shelf>,
}

impl Beginning {
    /// The beginning over a setup, for as many places as the limit. An error comes only where a growth is refused.
    pub(crate) fn new(alloc: Global, setup: &Setup, limit: u32) -> Result<Beginning, AllocError>
        requires most { limit ≤ most_entries }
        ensures { IfOk result (Begins setup.now limit) }
    {
        let sessions = Vec::with_capacity(alloc, MOST_SESSIONS)?;
        let places = Vec::with_capacity(alloc, limit as usize)?;
        let shelves = shelve(alloc, setup.contents())?;
        let policy = setup.policy().copy()?;
        // asked for the proof alone: a run over a setup that was read is judged by version 2
        let _version = setup.version();
        let cowns = policy.documents() as u32 + 1;
        let queues = Queues::new(alloc, cowns, limit)?;
        Ok(Beginning {
            sessions,
            places,
            queues,
            policy,
            shelves,
        })
    }
}
