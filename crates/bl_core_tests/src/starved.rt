//! What is left in a hall where a growth is refused.
use super::base::{SHOW_MEMO, base_or_none};
use bl_core::machine::Started;
use bl_core::refusal::{StartFault, Starved};
use bl_core::session::SessionNo;
use bl_eval::evaluate::eval;
use bl_eval::lent::{Lent, Unrun};
use bl_hall::event::Event;
use bl_hall::hall::Hall;
use bl_hall::reply::{AnswersFault, Reply};
use bl_policy::id::SubjectId;
use bl_read::line::read_line;
use bl_work::answer::Answer;
use bl_work::asked::Line;
use std::alloc::{AllocGlobal, Global};
use std::process::Abort;

/// Whether a line of `ann` is admitted: not where a growth of its reading is refused.
fn admits(hall: &mut Hall, alloc: Global, text: &str) -> bool {
    match read_line(alloc, hall.core().names(), text.as_bytes()) {
        Ok(Line::Work(work)) => hall.line(SessionNo::new(0), 1, work).is_ok(),
        _ => false,
    }
}

/// A hall over the base setup in which `ann` shows the memo; none where a growth is refused.
fn admitted(alloc: Global) -> Option<Hall> {
    let mut hall = Hall::new(alloc, base_or_none(alloc)?, 2).ok()?;
    let _session = hall.open(SubjectId::new(0));
    if admits(&mut hall, alloc, SHOW_MEMO) {
        Some(hall)
    } else {
        drop(hall);
        None
    }
}

/// Ends what a running entry was lent as lost.
fn lose(rt: &impl Abort, hall: &mut Hall, unrun: Unrun) {
    match hall.lose(unrun) {
        Ok(()) => {}
        Err(_foreign) => panic!(rt; "foreign"),
    }
    assert!(rt; hall.trail().last() == Some(&Event::Lost(0)));
}

/// Ends an entry with what is done of what it was lent, or as lost.
fn finish_or_lose<R: AllocGlobal + Abort>(rt: &R, hall: &mut Hall, lent: Lent) {
    match eval(rt.alloc(), lent) {
        Ok(done) => match hall.finish(done) {
            Ok(()) => {}
            Err(_foreign) => panic!(rt; "foreign"),
        },
        Err(unrun) => lose(rt, hall, unrun),
    }
}

/// Ends an entry as lost whose start was refused a growth, which added no event.
fn lose_starved(rt: &impl Abort, hall: &mut Hall, starved: Starved) {
    assert!(rt; hall.trail().len() == 2);
    assert!(rt; hall.lose_ready(starved).is_ok());
    assert!(rt; hall.trail().last() == Some(&Event::Lost(0)));
}

/// Starts and ends the entry.
fn run<R: AllocGlobal + Abort>(rt: &R, hall: &mut Hall) {
    match hall.start(0) {
        Ok(Started::Run(lent)) => finish_or_lose(rt, hall, lent),
        Ok(Started::Denied(_)) | Ok(Started::RuleDone) => panic!(rt; "nothing lent"),
        Err(StartFault::NotReady) => panic!(rt; "not ready"),
        Err(StartFault::Memory(starved)) => lose_starved(rt, hall, starved),
    }
}

/// Whether this is the one reply, to an entry that is done or lost.
fn is_answered(replies: &[Reply]) -> bool {
    replies.len() == 1 && matches!(&replies[0].answer, Answer::Done(_) | Answer::Lost)
}

/// It passes with ample memory, and with any one of its growths refused, one in each run
/// (`rt try --test --fail-alloc N`): there is no hall then, or the entry is lost and its session is told so, or the
/// replies are refused when out of memory.
#[test]
fn starved_in_a_hall(rt: HostRuntime) {
    if let Some(hall) = admitted(rt.alloc()) {
        let mut hall = hall;
        run(&rt, &mut hall);
        match hall.answers(SessionNo::new(0), 0) {
            Ok(Some(replies)) => assert!(rt; is_answered(replies.as_slice())),
            Ok(None) => panic!(rt; "it waits"),
            Err(fault) => assert!(rt; fault == AnswersFault::Memory),
        }
        drop(hall);
    }
}
