//! What is told when it happens, by the thread that waits for the others, and what it keeps up meanwhile.
ghost use Rattle.std.specs.Prelude.{◌<◌};
ghost use Rattle.bl_wire.specs.Watch.{end_state};
ghost use Rattle.bl_live.specs.Telling.{ToldLive};

use crate::repeats::Repeats;
use crate::told::{tell_count, tell_ended};
use bl_clock::clock::{SharedClock, tell_clock};
use bl_entrance::acceptor::SharedLog;
use bl_entrance::ended::{Ended, Why};
use bl_log::told::tell_cut;
use bl_wire::fault::SessionFault;
use bl_wire::watched::Watched;
use std::alloc::Global;
use std::io::Write;
use std::sync::Wait;

/// So many milliseconds lie between two looks.
const APART: u64 = 250;

/// Each cause for which a session ends early.
const CAUSES: [Why; 9] = [
    Why::Accept,
    Why::NotKept,
    Why::Idle,
    Why::TrailFull,
    Why::Session(SessionFault::Read),
    Why::Session(SessionFault::Write),
    Why::Session(SessionFault::TooLong),
    Why::Session(SessionFault::Memory),
    Why::Session(SessionFault::Clash),
];

/// What a server tells while it runs: how often each cause was told, the sessions that ended early and were not told
/// of, whether there was memory for these, when the next look is due, and the files that it looks after.
#[derive(Drop)]
pub struct Live<'a, F: Write + Drop> {
    causes: [Repeats; 9],
    untold: Vec<Ended>,
    all: bool,
    next: u64,
    log: Option<&'a SharedLog<F>>,
    clock: Option<&'a SharedClock<F>>,
}

/// The sessions that ended early and are told of at the end, in order, and whether there was memory for all.
#[derive(Drop)]
pub struct Untold {
    pub ended: Vec<Ended>,
    pub all: bool,
}

/// Where a cause stands among all.
fn place_of(why: Why) -> usize
    ensures { result < 9 }
{
    match why {
        Why::Accept => 0,
        Why::NotKept => 1,
        Why::Idle => 2,
        Why::TrailFull => 3,
        Why::Session(SessionFault::Read) => 4,
        Why::Session(SessionFault::Write) => 5,
        Why::Session(SessionFault::TooLong) => 6,
        Why::Session(SessionFault::Memory) => 7,
        Why::Session(SessionFault::Clash) => 8,
    }
}

impl<'a, F: Write + Drop> Live<'a, F> {
    /// Nothing was told yet. The log and the clock are looked after, where there are such.
    pub fn new(
        alloc: Global,
        log: Option<&'a SharedLog<F>>,
        clock: Option<&'a SharedClock<F>>,
    ) -> Live<'a, F> {
        Live {
            causes: [Repeats {
                last: None,
                count: 0,
            }; 9],
            untold: Vec::new(alloc),
            all: true,
            next: 0,
            log,
            clock,
        }
    }

    /// A session has ended early at this time, in milliseconds since any moment: that is told at once, where nothing
    /// was told of the same cause for a minute; else it is counted, and told at the end.
    pub fn tell<E: Write>(&mut self, errors: &mut Watched<E>, now: u64, ended: Ended)
        ensures { ToldLive (end_state E.contents errors.old) (end_state E.contents errors.new) }
    {
        if self.causes[place_of(ended.why)].come(now) {
            tell_ended(errors, &ended);
        } else {
            self.keep(ended);
        }
    }

    /// A session that ended early is told of at the end.
    pub fn keep(&mut self, ended: Ended) {
        self.all &= self.untold.push(ended).is_ok();
    }

    /// It is this time. Each quarter of a second the lines of the clock are written that were held, it is told where
    /// the clock or the log takes no more, and how often a cause came again, once a minute.
    pub fn look<R: Wait, E: Write>(&mut self, rt: &R, errors: &mut Watched<E>, now: u64)
        ensures { ToldLive (end_state E.contents errors.old) (end_state E.contents errors.new) }
    {
        if now < self.next {
            return;
        }
        self.next = now.saturating_add(APART);
        self.look_at_files(rt, errors);
        for why in CAUSES {
            self.tell_again(errors, why, now);
        }
    }

    /// Tells how often a cause came again, if that is due: those sessions are not told of at the end.
    fn tell_again<E: Write>(&mut self, errors: &mut Watched<E>, why: Why, now: u64)
        ensures { ToldLive (end_state E.contents errors.old) (end_state E.contents errors.new) }
    {
        let Some(count) = self.causes[place_of(why)].take_count(now) else {
            return;
        };
        tell_count(errors, why, count);
        self.untold.retain(|ended| ended.why != why);
    }

    /// Writes the lines of the clock that were held, and tells where it or the log takes no more.
    pub fn look_at_files<R: Wait, E: Write>(&self, rt: &R, errors: &mut Watched<E>)
        ensures { ToldLive (end_state E.contents errors.old) (end_state E.contents errors.new) }
    {
        self.look_at_clock(rt, errors);
        self.look_at_log(rt, errors);
    }

    /// Writes the lines of the clock that were held, and tells where it takes no more, or a time was before an earlier
    /// one.
    fn look_at_clock<R: Wait, E: Write>(&self, rt: &R, errors: &mut Watched<E>)
        ensures { ToldLive (end_state E.contents errors.old) (end_state E.contents errors.new) }
    {
        let Some(clock) = self.clock else {
            return;
        };
        let faults = clock.lock(rt).keep_up();
        tell_clock(errors, faults);
    }

    /// Tells where the log takes no more.
    fn look_at_log<R: Wait, E: Write>(&self, rt: &R, errors: &mut Watched<E>)
        ensures { ToldLive (end_state E.contents errors.old) (end_state E.contents errors.new) }
    {
        let Some(log) = self.log else {
            return;
        };
        let is_cut = log.lock(rt).take_cut();
        if is_cut {
            tell_cut(errors);
        }
    }

    /// What is left to be told.
    pub fn end(self) -> Untold {
        let Live { untold, all, .. } = self;
        Untold { ended: untold, all }
    }
}
