//! Halls over the base setup.
ghost use Rattle.std.specs.Prelude.{◌≤◌};

use crate::base::{base, right};
use bl_core::machine::Started;
use bl_core::session::SessionNo;
use bl_eval::evaluate::eval;
use bl_eval::lent::Lent;
use bl_hall::hall::Hall;
use bl_policy::id::SubjectId;
use bl_read::line::read_line;
use bl_work::asked::Line;
use std::alloc::AllocGlobal;
use std::process::Abort;

/// A hall over the base setup, under this limit, in which a session is open for each of these subjects.
pub fn hall_for<R: AllocGlobal + Abort>(rt: &R, limit: u32, subjects: &[u16]) -> Hall
    requires some { 1 ≤ limit }
    requires most { limit ≤ 100000 }
{
    let setup = right(rt, base(rt.alloc()));
    let mut hall = right(rt, Hall::new(rt.alloc(), setup, limit));
    for subject in subjects {
        right(rt, hall.open(SubjectId::new(*subject)));
    }
    hall
}

/// Admits a line of a session.
pub fn admit<R: AllocGlobal + Abort>(
    rt: &R,
    hall: &mut Hall,
    session: u32,
    ordinal: u32,
    text: &[u8],
) {
    match right(rt, read_line(rt.alloc(), hall.core().names(), text)) {
        Line::Work(work) => right(rt, hall.line(SessionNo::new(session), ordinal, work)),
        Line::Hello(_) | Line::Wait => panic!(rt; "no work"),
    };
}

/// Starts an entry, and gives what it was lent where it runs.
pub fn start<R: AllocGlobal + Abort>(rt: &R, hall: &mut Hall, n: u32) -> Option<Lent> {
    match right(rt, hall.start(n)) {
        Started::Run(lent) => Some(lent),
        Started::Denied(_) | Started::RuleDone => None,
    }
}

/// Ends an entry with what is done of what it was lent.
pub fn finish<R: AllocGlobal + Abort>(rt: &R, hall: &mut Hall, lent: Lent) {
    match eval(rt.alloc(), lent) {
        Ok(done) => match hall.finish(done) {
            Ok(()) => {}
            Err(_foreign) => panic!(rt; "foreign"),
        },
        Err(_unrun) => panic!(rt; "no memory"),
    }
}

/// Starts an entry, and ends it where it runs.
pub fn run<R: AllocGlobal + Abort>(rt: &R, hall: &mut Hall, n: u32) {
    if let Some(lent) = start(rt, hall, n) {
        finish(rt, hall, lent);
    }
}
