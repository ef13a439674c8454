//! A hall over the base setup, and what the tests ask of it.
use super::base::{ANN, BOB, base, done_of, right, work_of};
use bl_core::machine::Started;
use bl_core::session::SessionNo;
use bl_eval::lent::Done;
use bl_hall::hall::Hall;
use bl_policy::id::SubjectId;
use std::alloc::AllocGlobal;
use std::process::Abort;

/// A line that adds to memo.
pub(super) const ADD: &str = "when write memo do add memo \"b\"; end";

/// A hall over the base setup for lines up to a weight of 100, in which `ann` has session 0 and `bob` session 1.
pub(super) fn base_hall<R: AllocGlobal + Abort>(rt: &R) -> Hall {
    let mut hall = right(rt, Hall::new(rt.alloc(), base(rt), 100));
    right(rt, hall.open(SubjectId::new(ANN)));
    right(rt, hall.open(SubjectId::new(BOB)));
    hall
}

/// Admits a line of a session, and gives its place.
pub(super) fn admit<R: AllocGlobal + Abort>(
    rt: &R,
    hall: &mut Hall,
    session: u32,
    ordinal: u32,
    text: &str,
) -> u32 {
    let work = work_of(rt, hall.core().setup(), text.as_bytes());
    right(rt, hall.line(SessionNo::new(session), ordinal, work))
}

/// Ends an entry with what was done.
pub(super) fn finish(rt: &impl Abort, hall: &mut Hall, done: Done) {
    match hall.finish(done) {
        Ok(()) => {}
        Err(_foreign) => panic!(rt; "foreign"),
    }
}

/// Starts an entry that may start, and ends it where it runs.
pub(super) fn run<R: AllocGlobal + Abort>(rt: &R, hall: &mut Hall, n: u32) {
    match right(rt, hall.start(n)) {
        Started::Run(lent) => finish(rt, hall, done_of(rt, lent)),
        Started::Denied(_) | Started::RuleDone => {}
    }
}

/// Runs the entries by rising place, with the children that enter; there are no more than this.
pub(super) fn run_all<R: AllocGlobal + Abort>(rt: &R, hall: &mut Hall, most: u32) {
    for n in 0..most {
        if n < hall.core().entries() {
            run(rt, hall, n);
        }
    }
}
