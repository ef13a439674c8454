//! Which events a hall keeps.
use super::base::{ADD_AND_SPAWN, ANN, BOB, SHOW_MEMO, base, right, work_of};
use super::halls::{admit, base_hall, run_all};
use bl_core::refusal::StartFault;
use bl_core::session::SessionNo;
use bl_hall::event::Event;
use bl_hall::hall::Hall;
use bl_hall::remaking::Remaking;
use bl_policy::id::SubjectId;
use std::process::Abort;

/// The events of `ann`'s line with a child, behind the openings of both sessions.
fn events_of_a_child() -> [Event; 7] {
    [
        Event::Open(SubjectId::new(ANN)),
        Event::Open(SubjectId::new(BOB)),
        Event::Line {
            session: 0,
            ordinal: 1,
        },
        Event::Start(0),
        Event::End(0),
        Event::Start(1),
        Event::End(1),
    ]
}

#[test]
fn trail_of_a_child(rt: HostRuntime) {
    let mut hall = base_hall(&rt);
    admit(&rt, &mut hall, 0, 1, ADD_AND_SPAWN);
    run_all(&rt, &mut hall, 2);
    assert!(rt; hall.trail() == events_of_a_child().as_slice());
    drop(hall);
}

/// Whether an entry may not start, as its start says.
fn is_not_ready(rt: &impl Abort, hall: &mut Hall, n: u32) -> bool {
    match hall.start(n) {
        Ok(_started) => panic!(rt; "started"),
        Err(StartFault::NotReady) => true,
        Err(StartFault::Memory(_)) => false,
    }
}

/// What is refused adds no event.
#[test]
fn refusals_leave_the_trail(rt: HostRuntime) {
    let mut hall = base_hall(&rt);
    assert!(rt; hall.open(SubjectId::new(9)).is_err());
    let work = work_of(&rt, hall.core().setup(), SHOW_MEMO.as_bytes());
    assert!(rt; hall.line(SessionNo::new(2), 1, work).is_err());
    assert!(rt; is_not_ready(&rt, &mut hall, 0));
    assert!(rt; hall.trail().len() == 2 && hall.ready().is_none());
    drop(hall);
}

/// An entry that may start is lost though nobody tried it.
#[test]
fn lost_before_it_starts(rt: HostRuntime) {
    let mut remaking = right(&rt, Remaking::new(rt.alloc(), base(&rt), 100));
    right(&rt, remaking.open(SubjectId::new(ANN)));
    let work = work_of(&rt, remaking.hall().core().setup(), SHOW_MEMO.as_bytes());
    right(&rt, remaking.line(SessionNo::new(0), 1, work));
    if let Some(n) = remaking.hall().ready() {
        remaking.lose_untried(n);
    }
    let hall = remaking.into_hall();
    assert!(rt; hall.trail().last() == Some(&Event::Lost(0)));
    assert!(rt; hall.ready().is_none());
    drop(hall);
}
