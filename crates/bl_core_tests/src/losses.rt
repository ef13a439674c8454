//! What is lost though nobody tried it, as whoever follows a trail has it.
ghost use Rattle.bl_order.specs.Machine.{MayStart};

use super::base::{
    ANN, MEMO, SHOW_MEMO, Said, admit_all, base, has, is_done, is_lost, open_for_all, right, run,
};
use bl_core::machine::{Core, Started};
use bl_core::remaking::Remaking;
use std::process::Abort;

/// Starts an entry that may start, and loses what it was lent.
fn start_and_lose(rt: &impl Abort, core: &mut Core, remaking: &Remaking, n: u32)
    requires { MayStart core.old n }
{
    // read for the proof alone: a trail leads to this state
    let _policy = core.policy();
    match core.start(n) {
        Ok(Started::Run(lent)) => remaking.lose_running(core, lent),
        Ok(Started::Denied(_)) | Ok(Started::RuleDone) => panic!(rt; "nothing lent"),
        Err(_fault) => panic!(rt; "not started"),
    }
}

/// A writer of memo runs and is lost: memo is as it was, and the reader behind may start.
#[test]
fn lost_while_it_runs(rt: HostRuntime) {
    const LINES: &[Said<'_>] = &[
        (ANN, "when write memo do add memo \"a\"; end"),
        (ANN, SHOW_MEMO),
    ];
    let (mut core, remaking) = right(&rt, Remaking::begin(rt.alloc(), base(&rt), 100));
    open_for_all(&mut core);
    admit_all(&rt, &mut core, LINES);
    if let Some(n) = core.ready() {
        start_and_lose(&rt, &mut core, &remaking, n);
    }
    assert!(rt; is_lost(&core, 0));
    assert!(rt; has(&core, MEMO, "m1"));
    run(&rt, &mut core, 1);
    assert!(rt; is_done(&core, 1, &["m1"]));
    drop(core);
}
