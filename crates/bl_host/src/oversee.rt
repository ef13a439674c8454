//! What the main thread does while the others run.
ghost use Rattle.bl_live.specs.Telling.{ToldLive};
ghost use Rattle.bl_wire.specs.Watch.{end_state};

use bl_entrance::ended::Ended;
use bl_entrance::looks::now;
use bl_live::live::Live;
use bl_wire::watched::Watched;
use crossbeam_channel::{Receiver, RecvTimeoutError};
use std::alloc::Global;
use std::io::Write;
use std::sync::Wait;
use std::time::{Clock, Duration};

/// So many milliseconds the main thread waits at most before it looks after what it keeps up.
const QUARTER: u64 = 250;

/// Where the main thread hears how sessions ended, and what it tells of that.
#[derive(Drop)]
pub(crate) struct Overseer<'a, F: Write + Drop> {
    pub(crate) told: Receiver<Ended, Global>,
    pub(crate) live: Live<'a, F>,
}

/// An overseer, whatever it lends from: a closure that has one whose type names what it lends from keeps no contract.
pub(crate) trait Oversees {
    ghost use Rattle.bl_live.specs.Telling.{ToldLive};
    ghost use Rattle.bl_wire.specs.Watch.{end_state};

    /// Tells what happens until each of so many session threads has left, so that nobody tells anything any more.
    fn oversee<R: Wait + Clock, E: Write>(
        &mut self,
        rt: &R,
        sessions: usize,
        errors: &mut Watched<E>,
    )
        ensures { ToldLive (end_state E.contents errors.old) (end_state E.contents errors.new) };
}

impl<F: Write + Drop> Overseer<'_, F> {
    /// Tells what was heard at this time, in milliseconds, and says whether somebody may tell more.
    fn take<E: Write>(
        &mut self,
        errors: &mut Watched<E>,
        time: u64,
        heard: Result<Ended, RecvTimeoutError>,
    ) -> bool
        ensures { ToldLive (end_state E.contents errors.old) (end_state E.contents errors.new) }
    {
        match heard {
            Ok(ended) => {
                self.live.tell(errors, time, ended);
                true
            }
            Err(RecvTimeoutError::Timeout) => true,
            Err(RecvTimeoutError::Disconnected) => false,
        }
    }
}

impl<F: Write + Drop> Oversees for Overseer<'_, F> {
    fn oversee<R: Wait + Clock, E: Write>(
        &mut self,
        rt: &R,
        sessions: usize,
        errors: &mut Watched<E>,
    ) {
        if sessions == 0 {
            return;
        }
        for _ in rt.forever() {
            let heard = self.told.recv_timeout(rt, Duration::from_millis(QUARTER));
            // a clock that cannot be read stands still
            let time = now(rt).unwrap_or(0);
            if !self.take(errors, time, heard) {
                self.live.look_at_files(rt, errors);
                return;
            }
            self.live.look(rt, errors, time);
        }
    }
}
