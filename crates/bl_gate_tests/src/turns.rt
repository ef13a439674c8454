//! One turn through the gate.
use super::base::{
    ANN, ask, assert_all_parts, assert_answered, assert_first, assert_trail, base_gate, right,
};
use bl_audit::trail::write_trail;
use bl_hall::event::Event;
use bl_hall::hall::Hall;
use bl_policy::id::SubjectId;
use bl_wire::watched::Watched;
use bl_worker::pause::NoPause;
use bl_worker::turn::{Turn, work_once};
use std::alloc::AllocGlobal;
use std::process::Abort;

/// The events of one line and its turn.
fn events_of_a_turn() -> [Event; 4] {
    [
        Event::Open(SubjectId::new(ANN)),
        Event::Line {
            session: 0,
            ordinal: 1,
        },
        Event::Start(0),
        Event::End(0),
    ]
}

/// Their text.
const TEXT: &str = "trail 2\n\
limit 10000\n\
open ann\n\
line 0 1 when read memo do show memo;end\n\
start 0 run\n\
end 0 done \"m1\"\n\
stop\n";

/// Asserts the text of a hall's trail.
fn assert_text<R: AllocGlobal + Abort>(rt: &R, hall: &Hall, wanted: &str) {
    let mut text = Watched::new(Vec::new(rt.alloc()));
    right(rt, write_trail(rt.alloc(), hall, &mut text));
    let text = text.into_inner();
    assert!(rt; text.as_slice() == wanted.as_bytes());
}

/// Asserts what became of a turn.
fn assert_turn(rt: &impl Abort, turn: Turn, expected: Turn) {
    assert!(rt; turn == expected);
}

/// One pass opens a session and admits a line, another takes the turn, and the hall has what was done once the two have
/// met. Its trail is written.
#[test]
fn one_turn_through_the_gate(rt: HostRuntime) {
    let (gate, mut pass) = base_gate(&rt);
    let mut other = gate.split_pass(&mut pass);
    let (session, place) = ask(&rt, &gate, &mut pass);
    assert_first(&rt, session, place);
    let turn = work_once(&rt, rt.alloc(), &gate, &mut other, &NoPause);
    assert_turn(&rt, turn, Turn::Done(0));
    assert_answered(&rt, &gate, &mut pass, session);
    gate.meet(&mut pass, other);
    assert_all_parts(&rt, &pass);
    let hall = gate.close(pass);
    assert_trail(&rt, &hall, events_of_a_turn().as_slice());
    assert_text(&rt, &hall, TEXT);
    drop(hall);
}

/// Asserts that nothing has happened in a hall.
fn assert_nothing(rt: &impl Abort, hall: &Hall) {
    assert!(rt; hall.trail().is_empty());
}

/// A turn where nothing is ready is idle, and nothing happens.
#[test]
fn an_idle_turn(rt: HostRuntime) {
    let (gate, mut pass) = base_gate(&rt);
    let turn = work_once(&rt, rt.alloc(), &gate, &mut pass, &NoPause);
    assert_turn(&rt, turn, Turn::Idle);
    let hall = gate.close(pass);
    assert_nothing(&rt, &hall);
    drop(hall);
}
