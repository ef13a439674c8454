//! Entries that end in another order than they started.
use super::base::{ANN, admit, base_gate, begin, right};
use super::ends::finish_after_another;
use bl_hall::event::Event;
use bl_policy::id::SubjectId;
use std::process::Abort;

/// A line of the one session.
fn line(ordinal: u32) -> Event {
    Event::Line {
        session: 0,
        ordinal,
    }
}

/// The events of three lines that start one after another, of which the second ends first and the first last.
fn events_of_three() -> [Event; 10] {
    [
        Event::Open(SubjectId::new(ANN)),
        line(1),
        line(2),
        line(3),
        Event::Start(0),
        Event::Start(1),
        Event::Start(2),
        Event::End(1),
        Event::End(2),
        Event::End(0),
    ]
}

/// One pass starts two entries and another a third. Each ends its own, the first two in another order than they
/// started, and the hall has what was done once the two have met.
#[test]
fn finish_in_another_order(rt: HostRuntime) {
    let (gate, mut pass) = base_gate(&rt);
    let session = right(&rt, gate.open(&rt, &mut pass, SubjectId::new(ANN)));
    let mut other = gate.split_pass(&mut pass);
    assert!(rt; admit(&rt, &gate, &mut pass, session, 1) == 0);
    assert!(rt; admit(&rt, &gate, &mut pass, session, 2) == 1);
    assert!(rt; admit(&rt, &gate, &mut pass, session, 3) == 2);
    let first = begin(&rt, &gate, &mut pass, 0);
    let second = begin(&rt, &gate, &mut pass, 1);
    let third = begin(&rt, &gate, &mut other, 2);
    gate.finish(&rt, &mut pass, second);
    finish_after_another(&rt, &gate, &mut pass, &mut other, first, third);
    gate.meet(&mut pass, other);
    assert!(rt; pass.parts() == 64);
    let hall = gate.close(pass);
    assert!(rt; hall.trail() == events_of_three().as_slice());
    drop(hall);
}
