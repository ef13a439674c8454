//! What is left in a core where a growth is refused. With ample memory each test here passes by what is done alone. It
//! passes whatever single growth is refused too, and `starved_and_lost` where its second entry's start is refused one
//! after its first is lost: `bench/checks/growths` refuses them, and tells so by a file.
use super::base::{ANN, MEMO, SHOW_MEMO, base_or_none, finish, has, is_done, is_lost, run};
use bl_core::machine::{Core, Started};
use bl_core::refusal::{NotReady, StartFault, Starved};
use bl_core::session::SessionNo;
use bl_eval::evaluate::eval;
use bl_eval::lent::{Lent, Unrun};
use bl_policy::id::SubjectId;
use bl_read::line::read_line;
use bl_work::asked::Line;
use std::alloc::{AllocGlobal, Global};
use std::fs;
use std::io::Print;
use std::process::Abort;
use std::rt::Files;

/// How many growths were refused so far: who refuses one adds a byte to this file then, in the folder where the test
/// runs.
fn refusals(rt: &impl Files) -> u64 {
    match fs::metadata(rt, "refused") {
        Ok(file) => file.len(),
        Err(_) => 0,
    }
}

/// Says what came of a call.
fn say(rt: &impl Print, came: &str) {
    let _ = println!(rt; "{came}");
}

/// Asserts that a growth was refused in a call, before which so many were, and says what came of it.
fn say_refused<R: Abort + Files + Print>(rt: &R, before: u64, came: &str) {
    assert!(rt; refusals(rt) > before, "no growth was refused");
    say(rt, came);
}

/// Whether a line of `ann` is admitted: not where a growth of its reading is refused.
fn admits(core: &mut Core, alloc: Global, ordinal: u32, text: &str) -> bool {
    match read_line(alloc, core.setup().names(), text.as_bytes()) {
        Ok(Line::Work(work)) => core.line(SessionNo::new(0), ordinal, work).is_ok(),
        _ => false,
    }
}

/// A core over the base setup with nothing admitted; none where a growth is refused.
fn idle(alloc: Global) -> Option<Core> {
    Core::new(alloc, base_or_none(alloc)?, 2).ok()
}

/// A core over the base setup, in which `ann` adds to the memo and then shows it; none where a growth is refused.
fn admitted(alloc: Global) -> Option<Core> {
    let mut core = idle(alloc)?;
    let _session = core.open(SubjectId::new(ANN));
    let add = "when write memo do add memo \"a\"; end";
    if admits(&mut core, alloc, 1, add) && admits(&mut core, alloc, 2, SHOW_MEMO) {
        Some(core)
    } else {
        drop(core);
        None
    }
}

/// A core like that, beside one in which nothing is admitted; none where a growth is refused.
fn admitted_and_idle(alloc: Global) -> Option<(Core, Core)> {
    let other = idle(alloc)?;
    match admitted(alloc) {
        Some(core) => Some((core, other)),
        None => {
            drop(other);
            None
        }
    }
}

/// Whether nothing has begun.
fn is_as_admitted(core: &Core) -> bool {
    core.is_ready(0) && !core.is_ready(1) && core.answer(0).is_none() && has(core, MEMO, "m1")
}

/// Ends an entry as lost whose start was refused a growth, which changed nothing.
fn lose_starved(rt: &impl Abort, core: &mut Core, starved: Starved) {
    assert!(rt; is_as_admitted(core));
    assert!(rt; core.lose_ready(starved).is_ok());
}

/// Starts the entry that adds, and gives what it is lent; or ends it as lost, where a growth was refused.
fn begin_to_add<R: Abort + Files + Print>(rt: &R, core: &mut Core) -> Option<Lent> {
    let before = refusals(rt);
    match core.start(0) {
        Ok(Started::Run(lent)) => Some(lent),
        Ok(Started::Denied(_)) | Ok(Started::RuleDone) => panic!(rt; "nothing lent"),
        Err(StartFault::NotReady) => panic!(rt; "not ready"),
        Err(StartFault::Memory(starved)) => {
            say_refused(rt, before, "0 starved");
            lose_starved(rt, core, starved);
            None
        }
    }
}

/// Ends what a running entry was lent as lost.
fn lose(rt: &impl Abort, core: &mut Core, unrun: Unrun) {
    match core.lose(unrun) {
        Ok(()) => {}
        Err(_foreign) => panic!(rt; "foreign"),
    }
}

/// Ends a running entry with what is done of what it was lent; or as lost, where a growth was refused. Says which, and
/// gives whether it is done.
fn finish_or_lose<R: AllocGlobal + Abort + Files + Print>(
    rt: &R,
    core: &mut Core,
    lent: Lent,
    lost: &str,
) -> bool {
    let before = refusals(rt);
    match eval(rt.alloc(), lent) {
        Ok(done) => {
            finish(rt, core, done);
            say(rt, "own");
            true
        }
        Err(unrun) => {
            say_refused(rt, before, lost);
            lose(rt, core, unrun);
            false
        }
    }
}

/// Starts and ends the entry that adds, and gives whether it is done.
fn add<R: AllocGlobal + Abort + Files + Print>(rt: &R, core: &mut Core) -> bool {
    match begin_to_add(rt, core) {
        Some(lent) => finish_or_lose(rt, core, lent, "0 lost"),
        None => false,
    }
}

/// Asserts what the entry that adds has left: nothing, where it was lost.
fn assert_added(rt: &impl Abort, core: &Core, done: bool) {
    assert!(rt;
        if done {
            is_done(core, 0, &[]) && has(core, MEMO, "m1a")
        } else {
            is_lost(core, 0) && has(core, MEMO, "m1")
        }
    );
}

/// An entry whose start was refused a growth is started again. After its end it is not lost any more.
fn show_again<R: AllocGlobal + Abort>(rt: &R, core: &mut Core, starved: Starved) {
    assert!(rt; starved.entry() == 1);
    assert!(rt; core.is_ready(1));
    run(rt, core, 1);
    assert!(rt; core.lose_ready(starved) == Err(NotReady));
}

/// Starts and ends the entry that shows, and gives whether it is done.
fn show<R: AllocGlobal + Abort + Files + Print>(rt: &R, core: &mut Core) -> bool {
    let before = refusals(rt);
    match core.start(1) {
        Ok(Started::Run(lent)) => finish_or_lose(rt, core, lent, "1 lost"),
        Ok(Started::Denied(_)) | Ok(Started::RuleDone) => panic!(rt; "nothing lent"),
        Err(StartFault::NotReady) => panic!(rt; "not ready"),
        Err(StartFault::Memory(starved)) => {
            say_refused(rt, before, "1 starved");
            show_again(rt, core, starved);
            true
        }
    }
}

/// Asserts that the entry that shows has shown what the one that adds has left, or is lost.
fn assert_shown(rt: &impl Abort, core: &Core, added: bool, done: bool) {
    let memo = if added { "m1a" } else { "m1" };
    assert!(rt;
        if done {
            is_done(core, 1, &[memo])
        } else {
            is_lost(core, 1)
        }
    );
}

/// An entry that was refused a growth while it ran is lost, and has changed nothing. One that was refused a growth at
/// its start is as it was.
#[test]
fn starved_and_lost(rt: HostRuntime) {
    match admitted(rt.alloc()) {
        Some(core) => {
            let mut core = core;
            let added = add(&rt, &mut core);
            assert_added(&rt, &core, added);
            let shown = show(&rt, &mut core);
            assert_shown(&rt, &core, added, shown);
            assert_added(&rt, &core, added);
            drop(core);
        }
        None => say_refused(&rt, 0, "before"),
    }
}

/// What was left undone, which the core did not lend and hands back.
fn handed_back(rt: &impl Abort, core: &mut Core, unrun: Unrun) -> Unrun {
    match core.lose(unrun) {
        Ok(()) => panic!(rt; "not foreign"),
        Err(foreign) => foreign.into_unrun(),
    }
}

/// Ends the entry that adds as `finish_or_lose` does. What was left undone comes back from another core first, in which
/// nothing runs.
fn finish_or_lose_in_turn<R: AllocGlobal + Abort + Files + Print>(
    rt: &R,
    core: &mut Core,
    other: &mut Core,
    lent: Lent,
) -> bool {
    let before = refusals(rt);
    match eval(rt.alloc(), lent) {
        Ok(done) => {
            finish(rt, core, done);
            say(rt, "own");
            true
        }
        Err(unrun) => {
            say_refused(rt, before, "0 lost");
            let unrun = handed_back(rt, other, unrun);
            lose(rt, core, unrun);
            false
        }
    }
}

/// Starts and ends the entry that adds, beside another core, and gives whether it is done.
fn add_beside<R: AllocGlobal + Abort + Files + Print>(
    rt: &R,
    core: &mut Core,
    other: &mut Core,
) -> bool {
    match begin_to_add(rt, core) {
        Some(lent) => finish_or_lose_in_turn(rt, core, other, lent),
        None => false,
    }
}

/// A core loses what it lent alone.
#[test]
fn foreign_lose(rt: HostRuntime) {
    match admitted_and_idle(rt.alloc()) {
        Some((core, other)) => {
            let mut core = core;
            let mut other = other;
            let added = add_beside(&rt, &mut core, &mut other);
            assert_added(&rt, &core, added);
            drop(core);
            drop(other);
        }
        None => say_refused(&rt, 0, "before"),
    }
}
