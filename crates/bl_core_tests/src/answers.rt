//! What a hall answers its sessions.
use super::base::{ADD_AND_SPAWN, SHOW_MEMO, has_shown};
use super::halls::{ADD, admit, base_hall, run};
use bl_core::session::SessionNo;
use bl_hall::hall::Hall;
use bl_hall::reply::{AnswersFault, Reply};
use std::alloc::AllocGlobal;
use std::process::Abort;

/// A reply: its label, and the texts that it shows.
type Told = (&'static [u32], &'static [&'static str]);

/// What is done in a hall or asked of it, and what it has to say. A line and what is told are of a session, and stand
/// behind its number.
#[derive(Clone, Copy)]
enum Step {
    /// A line with this ordinal is admitted.
    Line(u32, u32, &'static str),
    /// The entry runs.
    Runs(u32),
    /// The session waits.
    Waits(u32),
    /// The replies to its lines above this ordinal are these.
    Told(u32, u32, &'static [Told]),
    /// The session is not open.
    NotOpen(u32),
}

/// Whether a reply has this label and shows these texts.
fn is_told(reply: &Reply, told: &Told) -> bool {
    reply.label.as_slice() == told.0 && has_shown(&reply.answer, told.1)
}

fn are_told(replies: &[Reply], told: &[Told]) -> bool {
    for (n, told) in told.iter().enumerate() {
        match replies.get(n) {
            Some(reply) if is_told(reply, told) => {}
            _ => return false,
        }
    }
    replies.len() == told.len()
}

/// Whether the replies to a session's lines above an ordinal are these.
fn tells(hall: &Hall, session: u32, after: u32, told: &[Told]) -> bool {
    match hall.answers(SessionNo::new(session), after) {
        Ok(Some(replies)) => {
            let tells = are_told(replies.as_slice(), told);
            drop(replies);
            tells
        }
        _ => false,
    }
}

/// Whether a session waits.
fn waits(hall: &Hall, session: u32) -> bool {
    matches!(hall.answers(SessionNo::new(session), 0), Ok(None))
}

/// Whether a hall answers that a session is not open.
fn is_not_open(hall: &Hall, session: u32) -> bool {
    matches!(
        hall.answers(SessionNo::new(session), 0),
        Err(AnswersFault::Session)
    )
}

/// Does what a step says, and gives whether it goes as it has to.
fn stands<R: AllocGlobal + Abort>(rt: &R, hall: &mut Hall, step: &Step) -> bool {
    match step {
        Step::Line(session, ordinal, text) => {
            admit(rt, hall, *session, *ordinal, text);
            true
        }
        Step::Runs(n) => {
            run(rt, hall, *n);
            true
        }
        Step::Waits(session) => waits(hall, *session),
        Step::Told(session, after, told) => tells(hall, *session, *after, told),
        Step::NotOpen(session) => is_not_open(hall, *session),
    }
}

fn assert_of<R: AllocGlobal + Abort>(rt: &R, hall: &mut Hall, steps: &[Step]) {
    for (n, step) in steps.iter().enumerate() {
        assert!(rt; stands(rt, hall, step), "step {n}");
    }
}

/// Asserts that a hall over the base setup goes so.
fn assert_steps<R: AllocGlobal + Abort>(rt: &R, steps: &[Step]) {
    let mut hall = base_hall(rt);
    assert_of(rt, &mut hall, steps);
    drop(hall);
}

/// A child's reply stands between those of the lines.
#[test]
fn answers_of_a_hall(rt: HostRuntime) {
    const STEPS: &[Step] = &[
        Step::Line(0, 1, ADD_AND_SPAWN),
        Step::Line(0, 2, ADD),
        Step::Waits(0),
        Step::Runs(0),
        Step::Runs(1),
        Step::Runs(2),
        Step::Told(0, 0, &[(&[1], &[]), (&[1, 1], &["m1ab"]), (&[2], &[])]),
        Step::Told(0, 1, &[(&[2], &[])]),
        Step::NotOpen(2),
    ];
    assert_steps(&rt, STEPS);
}

/// A session waits for its own entries alone, and is told of no other's.
#[test]
fn sessions_are_apart(rt: HostRuntime) {
    const STEPS: &[Step] = &[
        Step::Line(1, 5, "when read note do show note; end"),
        Step::Line(0, 1, SHOW_MEMO),
        Step::Waits(1),
        Step::Runs(0),
        Step::Told(1, 0, &[(&[5], &["n1"])]),
        Step::Waits(0),
        Step::Runs(1),
        Step::Told(0, 0, &[(&[1], &["m1"])]),
    ];
    assert_steps(&rt, STEPS);
}
