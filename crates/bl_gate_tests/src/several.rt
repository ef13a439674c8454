//! Several calls in one turn at the gate.
ghost use Rattle.std.specs.Prelude.{◌≡◌};
ghost use Rattle.bl_gate.specs.Gates.{Follows, HasLoanInHand, KeepsInHand};

use super::base::{ANN, base_gate, done_of, lent_of, right, show_memo};
use bl_core::session::SessionNo;
use bl_eval::lent::Lent;
use bl_gate::gate::Gate;
use bl_gate::turn::Turn;
use bl_hall::event::Event;
use bl_policy::id::SubjectId;
use std::alloc::AllocGlobal;
use std::process::Abort;

/// A line of the one session.
fn line(ordinal: u32) -> Event {
    Event::Line {
        session: 0,
        ordinal,
    }
}

/// The events of two turns of one pass, between which another pass admits a line: the first turn opens a session,
/// admits two lines and starts them, the second ends them, the last first.
fn events_of_two_turns() -> [Event; 8] {
    [
        Event::Open(SubjectId::new(ANN)),
        line(1),
        line(2),
        Event::Start(0),
        Event::Start(1),
        line(3),
        Event::End(1),
        Event::End(0),
    ]
}

/// Admits a line of a session that shows memo, in a turn, and gives its place.
fn admit<R: AllocGlobal + Abort>(
    rt: &R,
    gate: &Gate,
    turn: &mut Turn<'_>,
    session: SessionNo,
    ordinal: u32,
) -> u32
    ensures follows { Follows turn.old turn.new }
    ensures in_hand { KeepsInHand turn.old turn.new }
{
    match turn.line(session, ordinal, show_memo(rt, gate)) {
        Ok(place) => place,
        Err(_refused) => panic!(rt; "refused"),
    }
}

/// Starts an entry in a turn. The pass has it in hand, and what it had before.
fn begin<R: Abort>(rt: &R, turn: &mut Turn<'_>, n: u32) -> Lent
    ensures follows { Follows turn.old turn.new }
    ensures in_hand { KeepsInHand turn.old turn.new }
    ensures held { HasLoanInHand turn.new result }
    ensures entry { result.entry ≡ n }
{
    lent_of(rt, right(rt, turn.start(n)))
}

/// Whether a session has this many replies to its lines.
fn has_replies(rt: &impl Abort, turn: &Turn<'_>, session: SessionNo, count: usize) -> bool {
    match turn.answers(session, 0) {
        Ok(Some(replies)) => replies.len() == count,
        Ok(None) => false,
        Err(_fault) => panic!(rt; "not answered"),
    }
}

/// A turn in which nothing is called, and one that is answered: a session without a line.
#[test]
fn turns_without_events(rt: HostRuntime) {
    let (gate, mut pass) = base_gate(&rt);
    let session = right(&rt, gate.open(&rt, &mut pass, SubjectId::new(ANN)));
    let pass = gate.turn(&rt, pass).leave();
    let turn = gate.turn(&rt, pass);
    assert!(rt; turn.ready().is_none());
    assert!(rt; has_replies(&rt, &turn, session, 0));
    let pass = turn.leave();
    let hall = gate.close(pass);
    assert!(rt; hall.trail() == [Event::Open(SubjectId::new(ANN))].as_slice());
    drop(hall);
}

/// One pass opens a session, admits two lines and starts them in one turn, and ends them in the next, in another order.
#[test]
fn two_turns_of_several_calls(rt: HostRuntime) {
    let (gate, mut pass) = base_gate(&rt);
    let other = gate.split_pass(&mut pass);
    let mut turn = gate.turn(&rt, pass);
    let session = right(&rt, turn.open(SubjectId::new(ANN)));
    assert!(rt; turn.ready().is_none());
    assert!(rt; admit(&rt, &gate, &mut turn, session, 1) == 0);
    assert!(rt; admit(&rt, &gate, &mut turn, session, 2) == 1);
    assert!(rt; turn.ready() == Some(0));
    let first = begin(&rt, &mut turn, 0);
    let second = begin(&rt, &mut turn, 1);
    let pass = turn.leave();
    let first = done_of(&rt, first);
    let second = done_of(&rt, second);
    let mut beside = gate.turn(&rt, other);
    assert!(rt; admit(&rt, &gate, &mut beside, session, 3) == 2);
    let other = beside.leave();
    let mut turn = gate.turn(&rt, pass);
    turn.finish(second);
    turn.finish(first);
    assert!(rt; !has_replies(&rt, &turn, session, 2));
    let mut pass = turn.leave();
    gate.meet(&mut pass, other);
    assert!(rt; pass.parts() == 64);
    let hall = gate.close(pass);
    assert!(rt; hall.trail() == events_of_two_turns().as_slice());
    drop(hall);
}
