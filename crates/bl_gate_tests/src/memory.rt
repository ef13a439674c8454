//! What a turn does where a growth is refused. With ample memory the test here passes by the example's own answers
//! alone. It passes whatever single growth is refused too: `bench/checks/growths` refuses each in turn, and tells so by
//! a file.
ghost use Rattle.std.specs.Prelude.{◌≡◌, IfSome};
ghost use Rattle.bl_gate.specs.Gates.{Follows};

use super::base::{ANN, BASE, SHOW_MEMO, assert_all_parts, is_memo, right};
use bl_core::session::SessionNo;
use bl_gate::gate::Gate;
use bl_gate::pass::Pass;
use bl_hall::event::Event;
use bl_hall::hall::Hall;
use bl_hall::reply::{AnswersFault, Reply};
use bl_policy::id::SubjectId;
use bl_read::line::read_line;
use bl_setup::reader::read_setup;
use bl_work::answer::Answer;
use bl_work::asked::Line;
use bl_work::work::Work;
use bl_worker::pause::NoPause;
use bl_worker::turn::{Turn, work_once};
use std::alloc::{AllocGlobal, Global};
use std::fs;
use std::io::Print;
use std::process::Abort;
use std::rt::Files;
use std::sync::Wait;

/// Whether a growth was refused so far: who refuses one writes this file then, in the folder where the test runs.
fn was_refused(rt: &impl Files) -> bool {
    !matches!(fs::exists(rt, "refused"), Ok(false))
}

/// Says what came of a call.
fn say(rt: &impl Print, came: &str) {
    let _ = println!(rt; "{came}");
}

/// Asserts that a growth was refused, where a call was out of memory before the turn, and says so.
fn assert_before<R: Abort + Files + Print>(rt: &R) {
    assert!(rt; was_refused(rt), "no growth was refused");
    say(rt, "before");
}

/// Asserts that a growth was refused in a call, before which that was so or not.
fn assert_refused<R: Abort + Files>(rt: &R, before: bool) {
    assert!(rt; !before && was_refused(rt), "no growth was refused");
}

/// A hall over the base setup for lines up to a weight of 10,000; none where a growth is refused.
fn hall_or_none(alloc: Global) -> Option<Hall> {
    Hall::new(alloc, read_setup(alloc, BASE).ok()?, 10_000).ok()
}

/// A gate over the base setup and the pass with all its parts; none where a growth is refused.
fn gate_or_none(alloc: Global) -> Option<(Gate, Pass)>
    ensures gate { IfSome result (λ made. made.1.gate ≡ made.0) }
    ensures parts { IfSome result (λ made. made.1.parts ≡ 64) }
{
    Gate::new(hall_or_none(alloc)?).ok()
}

/// The work of a line that shows memo; none where a growth is refused.
fn work_or_none(alloc: Global, gate: &Gate) -> Option<Work> {
    match read_line(alloc, gate.names(), SHOW_MEMO) {
        Ok(Line::Work(work)) => Some(work),
        Ok(Line::Hello(_)) | Ok(Line::Wait) | Err(_) => None,
    }
}

/// Opens the first session, of `ann`, and admits its first line, with this work.
fn admit<R: AllocGlobal + Abort + Wait>(rt: &R, gate: &Gate, pass: &mut Pass, work: Work)
    requires { pass.old.gate ≡ gate.now }
    ensures { Follows pass.old pass.new }
{
    let session = right(rt, gate.open(rt, pass, SubjectId::new(ANN)));
    assert!(rt; session.number() == 0);
    let place = right(rt, gate.line(rt, pass, session, 1, work));
    assert!(rt; place == 0);
}

/// Takes the turn of the line that was admitted, and says what came of it: it is done; or, where a growth was refused
/// in the call, lost.
fn turn<R: AllocGlobal + Abort + Files + Print + Wait>(rt: &R, gate: &Gate, pass: &mut Pass) -> bool
    requires { pass.old.gate ≡ gate.now }
    ensures { Follows pass.old pass.new }
{
    let before = was_refused(rt);
    let turn = work_once(rt, rt.alloc(), gate, pass, &NoPause);
    if turn == Turn::Done(0) {
        say(rt, "own");
        return true;
    }
    assert!(rt; turn == Turn::Lost(0));
    assert_refused(rt, before);
    say(rt, "1 lost");
    false
}

/// Whether these replies are one, to the first line, and it is lost.
fn is_lost(replies: &[Reply]) -> bool {
    replies.len() == 1
        && replies[0].label.as_slice() == [1].as_slice()
        && matches!(replies[0].answer, Answer::Lost)
}

/// Asserts that these replies are to a turn that was done, or to one that was lost.
fn assert_replies(rt: &impl Abort, replies: &[Reply], done: bool) {
    assert!(rt;
        if done {
            is_memo(replies)
        } else {
            is_lost(replies)
        }
    );
}

/// Asserts that the session is answered as the turn was; or, where a growth was refused in the call, out of memory.
/// Says which.
fn assert_answered<R: AllocGlobal + Abort + Files + Print + Wait>(
    rt: &R,
    gate: &Gate,
    pass: &mut Pass,
    done: bool,
)
    requires { pass.old.gate ≡ gate.now }
    ensures { Follows pass.old pass.new }
{
    let before = was_refused(rt);
    match gate.answers(rt, pass, SessionNo::new(0), 0) {
        Ok(Some(replies)) => {
            assert_replies(rt, replies.as_slice(), done);
            drop(replies);
            say(rt, "own");
        }
        Err(AnswersFault::Memory) => {
            assert_refused(rt, before);
            say(rt, "out of memory");
        }
        Ok(None) | Err(AnswersFault::Session) => panic!(rt; "not answered"),
    }
}

/// The event of the session that is opened.
fn opened() -> Event {
    Event::Open(SubjectId::new(ANN))
}

/// The event of its line.
fn admitted() -> Event {
    Event::Line {
        session: 0,
        ordinal: 1,
    }
}

/// Whether these are the events of one line and of a turn that was done, or that was lost at its start or while it ran.
fn are_of_a_turn(events: &[Event], done: bool) -> bool {
    if done {
        events == [opened(), admitted(), Event::Start(0), Event::End(0)].as_slice()
    } else {
        events == [opened(), admitted(), Event::Lost(0)].as_slice()
            || events == [opened(), admitted(), Event::Start(0), Event::Lost(0)].as_slice()
    }
}

/// Asserts that a hall has the events of such a turn.
fn assert_turn(rt: &impl Abort, hall: &Hall, done: bool) {
    assert!(rt; are_of_a_turn(hall.trail(), done));
}

/// One pass admits a line, another takes the turn, and the first asks for the answers.
fn take_the_turn<R: AllocGlobal + Abort + Files + Print + Wait>(
    rt: &R,
    gate: Gate,
    mut pass: Pass,
    work: Work,
)
    requires gate { pass.gate ≡ gate }
    requires parts { pass.parts ≡ 64 }
{
    let mut other = gate.split_pass(&mut pass);
    admit(rt, &gate, &mut pass, work);
    let done = turn(rt, &gate, &mut other);
    assert_answered(rt, &gate, &mut pass, done);
    gate.meet(&mut pass, other);
    assert_all_parts(rt, &pass);
    let hall = gate.close(pass);
    assert_turn(rt, &hall, done);
    drop(hall);
}

#[test]
fn one_turn_through_the_gate(rt: HostRuntime) {
    match gate_or_none(rt.alloc()) {
        Some((gate, pass)) => match work_or_none(rt.alloc(), &gate) {
            Some(work) => take_the_turn(&rt, gate, pass, work),
            None => {
                assert_before(&rt);
                drop(pass);
                drop(gate);
            }
        },
        None => assert_before(&rt),
    }
}
