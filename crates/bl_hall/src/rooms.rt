//! Room for all that can happen in a hall.
ghost use Rattle.std.specs.Prelude.{◌≡◌, ◌≤◌, ◌+◌, ◌*◌, IfOk, []};
ghost use Rattle.std.specs.Vec.{vec_capacity};
ghost use Rattle.bl_order.specs.Machine.{most_sessions};

use crate::event::Event;
use crate::link::{Link, Tally};
use std::alloc::{AllocError, Global};

/// How many sessions a core opens at most.
const MOST_SESSIONS: usize = 1000;

/// What a hall keeps beside its core: its events, a link for each place and a tally for each session.
#[derive(Drop)]
pub(crate) struct Rooms {
    pub(crate) events: Vec<Event>,
    pub(crate) links: Vec<Link>,
    pub(crate) tallies: Vec<Tally>,
}

impl Rooms {
    /// Room for all that the limit lets happen, and nothing in it. An error comes only where a growth is refused.
    pub(crate) fn new(alloc: Global, limit: u32) -> Result<Rooms, AllocError>
        requires { limit ≤ 100000 }
        ensures events { IfOk result (λ rooms. (rooms.events.items ≡ [])
            × (most_sessions + 3 * limit ≤ vec_capacity rooms.events)) }
        ensures links { IfOk result (λ rooms. (rooms.links.items ≡ []) × (limit ≤ vec_capacity rooms.links)) }
        ensures tallies { IfOk result (λ rooms. (rooms.tallies.items ≡ [])
            × (most_sessions ≤ vec_capacity rooms.tallies)) }
    {
        let places = limit as usize;
        let events = Vec::with_capacity(alloc, MOST_SESSIONS + 3 * places)?;
        let links = Vec::with_capacity(alloc, places)?;
        let tallies = Vec::with_capacity(alloc, MOST_SESSIONS)?;
        Ok(Rooms {
            events,
            links,
            tallies,
        })
    }
}
