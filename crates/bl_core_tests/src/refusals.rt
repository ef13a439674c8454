//! What a core refuses: sessions, names, and what it did not lend.
use super::base::{
    ANN, DAN, SHOW_MEMO, admit, base, base_core, core_over, done_of, finish, is_done, is_not_ready,
    lent_to, right, setup_with, work_of,
};
use bl_core::machine::Core;
use bl_core::refusal::{Cause, OpenRefused};
use bl_core::session::SessionNo;
use bl_eval::lent::Done;
use bl_policy::id::SubjectId;
use bl_work::work::Work;
use std::alloc::{AllocError, AllocGlobal, Global};
use std::process::Abort;

/// Opens as many sessions as a core may have, which are counted from 0.
fn open_all(rt: &impl Abort, core: &mut Core) {
    for number in 0..1000 {
        let session = core.open(SubjectId::new(ANN));
        assert!(rt; session == Ok(SessionNo::new(number)));
    }
}

#[test]
fn sessions_full(rt: HostRuntime) {
    let mut core = right(&rt, Core::new(rt.alloc(), base(&rt), 1));
    open_all(&rt, &mut core);
    let refused = core.open(SubjectId::new(ANN));
    assert!(rt; refused == Err(OpenRefused::SessionsFull));
    let refused = core.open(SubjectId::new(DAN));
    assert!(rt; refused == Err(OpenRefused::Stranger));
    drop(core);
}

/// What was done, which the core did not lend and hands back.
fn handed_back(rt: &impl Abort, core: &mut Core, done: Done) -> Done {
    match core.finish(done) {
        Ok(()) => panic!(rt; "not foreign"),
        Err(foreign) => foreign.into_done(),
    }
}

/// What is done with what a core lent comes back from another core, and then ends its entry in the first.
fn finish_in_turn<R: AllocGlobal + Abort>(rt: &R, core: &mut Core, other: &mut Core) {
    admit(rt, core, ANN, 1, SHOW_MEMO);
    let done = done_of(rt, lent_to(rt, core, 0));
    let done = handed_back(rt, other, done);
    finish(rt, core, done);
}

#[test]
fn foreign_finish(rt: HostRuntime) {
    let mut core = base_core(&rt);
    let mut other = base_core(&rt);
    finish_in_turn(&rt, &mut core, &mut other);
    assert!(rt; is_done(&core, 0, &["m1"]));
    assert!(rt; is_not_ready(&rt, &mut core, 0));
    drop(core);
    drop(other);
}

/// A name of 32 bytes.
const LONG_NAME: &[u8] = b"memorandum_of_thirty_two_letters";

/// `when read memo do `, 700 times `show memo;`, and `end`.
fn show_often(alloc: Global) -> Result<Vec<u8>, AllocError> {
    let mut text = Vec::new(alloc);
    text.extend_from_slice(b"when read memo do ")?;
    for _ in 0..700 {
        text.extend_from_slice(b"show memo;")?;
    }
    text.extend_from_slice(b"end")?;
    Ok(text)
}

/// Whether these are one behaviour.
fn are_same(work: &Work, other: &Work) -> bool {
    match (work, other) {
        (Work::Behaviour(script), Work::Behaviour(other)) => script.is_same(other),
        _ => false,
    }
}

/// Why a core does not admit this work as a line of its first session, and whether that work is handed back.
fn cause_of(core: &mut Core, work: Work, same: &Work) -> Option<(Cause, bool)> {
    match core.line(SessionNo::new(0), 1, work) {
        Ok(_) => None,
        Err(refused) => Some((refused.cause, are_same(&refused.work, same))),
    }
}

/// A core over the base setup with this name of the memo.
fn core_naming<R: AllocGlobal + Abort>(rt: &R, name: &[u8]) -> Core {
    core_over(rt, setup_with(rt, name, b"m1", b""))
}

/// The work of a line of the base setup whose text would be too long with the long name.
fn long_work<R: AllocGlobal + Abort>(rt: &R) -> Work {
    let text = right(rt, show_often(rt.alloc()));
    let core = base_core(rt);
    let work = work_of(rt, core.setup(), &text);
    drop(core);
    work
}

/// Why a core with this name of the memo does not admit that work.
fn refused_with<R: AllocGlobal + Abort>(rt: &R, name: &[u8]) -> Option<(Cause, bool)> {
    let work = long_work(rt);
    let mut core = core_naming(rt, name);
    let cause = cause_of(&mut core, right(rt, work.share()), &work);
    drop(work);
    drop(core);
    cause
}

#[test]
fn foreign_names(rt: HostRuntime) {
    assert!(rt; LONG_NAME.len() == 32);
    assert!(rt; refused_with(&rt, b"memo").is_none());
    assert!(rt; refused_with(&rt, LONG_NAME) == Some((Cause::Stranger, true)));
}
