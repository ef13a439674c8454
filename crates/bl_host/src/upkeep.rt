//! The thread that has all kept for those that wait at desks.
use crate::context::ThreadContext;
use bl_keeper::keep::Keep;
use bl_rounds::alarm::Alarms;
use std::alloc::Global;
use std::sync::Wait;
use std::thread::{JoinHandle, Scope, Threads};

/// Has all kept for those that wait at the desks of so many threads, and wakes these, until nobody will wait there any
/// more.
fn keep_for_desks<K: Keep, T: Wait>(
    rt: &T,
    alloc: Global,
    keep: &K,
    alarms: &Alarms,
    threads: u32,
) {
    for _ in rt.forever() {
        match keep.serve(rt, alloc) {
            Some(decided) => wake_desks(rt, keep, alarms, threads, decided),
            None => return,
        }
    }
}

/// Wakes each of so many threads at whose desk somebody waits no more, since it is decided for all below this number.
fn wake_desks<K: Keep, T: Wait>(rt: &T, keep: &K, alarms: &Alarms, threads: u32, decided: u64) {
    for thread in 0..threads as usize {
        let Some(desk) = keep.desk(thread) else {
            return;
        };
        if desk.has_next(rt, decided) {
            alarms.wake(thread);
        }
    }
}

/// The thread that has all kept for those that wait at desks, if there is a desk, and whether all was started that is
/// to run.
#[derive(Drop)]
pub(crate) struct Upkeep {
    pub(crate) whole: bool,
    running: Option<JoinHandle<()>>,
}

impl Upkeep {
    /// Starts the thread that has all kept for those that wait at the desks of so many session threads, if there is a
    /// desk.
    pub(crate) fn start<'s, E, P, K: Keep + Sync, T: Threads + Wait + Sync>(
        scope: &Scope<'s, E>,
        context: &ThreadContext<'s, P, K, T>,
        threads: u32,
    ) -> Upkeep {
        let (rt, alloc) = (context.rt, context.alloc);
        let (keep, alarms) = (context.keep, context.alarms);
        if keep.desk(0).is_none() {
            return Upkeep {
                whole: true,
                running: None,
            };
        }
        let started = scope.spawn(move || keep_for_desks(rt, alloc, keep, alarms, threads));
        let running = started.ok();
        Upkeep {
            whole: running.is_some(),
            running,
        }
    }

    /// Nobody will wait at a desk any more: waits for the thread, if there is one.
    pub(crate) fn end<K: Keep, T: Threads + Wait>(self, rt: &T, keep: &K) {
        keep.close(rt);
        let Upkeep { whole: _, running } = self;
        match running {
            Some(running) => running.join(rt),
            None => {}
        }
    }
}
