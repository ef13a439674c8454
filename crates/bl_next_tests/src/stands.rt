//! What stands after some lines, and in a run that goes on from there.
ghost use Rattle.std.specs.Prelude.{◌≡◌};

use crate::base::{
    ANN, BASE, BOB, ROOT, Said, admit, assert_stands, base_core, core_over, next_of, run_lines,
};
use bl_core::machine::Core;
use bl_next::next::have_all_ended;
use bl_policy::id::DocId;
use std::alloc::AllocGlobal;
use std::process::Abort;

/// Lines that change contents, levels, rights and which documents there are, and one that is denied.
const LINES: [Said<'static>; 12] = [
    (ANN, "when write memo do add memo \"a\"; end"),
    (BOB, "current s{nato}"),
    (ANN, "current u"),
    (ROOT, "give cat log a"),
    (ROOT, "rescind bob memo a"),
    (ROOT, "create draft"),
    (ROOT, "give root draft w"),
    (ROOT, "when write draft do set draft \"d\"; end"),
    (ROOT, "delete note"),
    (ROOT, "give ann note r"),
    (ROOT, "classify top s{crypto}"),
    (ANN, "when read log do show log; end"),
];

/// What they leave: a deleted document with a right, one that was never created, and a lowered level.
const LEFT: &str = "ranks u c s t\n\
categories nato crypto\n\
subject ann greatest s{nato}current u\n\
subject bob greatest s{nato}current s{nato}\n\
subject cat greatest s{crypto}current s{crypto}\n\
subject root greatest t{nato,crypto}current u trusted admin\n\
document memo s{nato}\"m1a\"\n\
reserve note u\n\
document log t{nato,crypto}\"\"\n\
document draft u\"d\"\n\
reserve top s{crypto}\n\
allow ann memo r w\n\
allow ann note r\n\
allow ann log r a\n\
allow bob memo r w\n\
allow cat memo r\n\
allow cat log a\n\
allow root draft w\n";

/// Where nothing was admitted, the setup stands with which the run began.
#[test]
fn the_first_setup(rt: HostRuntime) {
    let core = base_core(&rt);
    assert_stands(&rt, &core, BASE.as_bytes());
    drop(core);
}

#[test]
fn what_was_changed(rt: HostRuntime) {
    let mut core = base_core(&rt);
    run_lines(&rt, &mut core, &LINES);
    assert_stands(&rt, &core, LEFT.as_bytes());
    drop(core);
}

/// Runs the first lines over the base setup, and the others over what those leave. Asserts what these leave.
fn run_in_two<R: AllocGlobal + Abort>(rt: &R, first: &[Said<'_>], second: &[Said<'_>]) {
    let mut core = base_core(rt);
    run_lines(rt, &mut core, first);
    let mut next = core_over(rt, next_of(rt, &core));
    drop(core);
    run_lines(rt, &mut next, second);
    assert_stands(rt, &next, LEFT.as_bytes());
    drop(next);
}

/// Wherever the lines are cut in two, the second run leaves what one run of all would.
#[test]
fn a_run_goes_on(rt: HostRuntime) {
    for k in 0..LINES.len() {
        run_in_two(&rt, &LINES[..k], &LINES[k..]);
    }
}

/// Doubles the memo, to its greatest length.
fn grow<R: AllocGlobal + Abort>(rt: &R, core: &mut Core)
    ensures { core.new.setup ≡ core.old.setup }
{
    for _ in 0..16 {
        run_lines(
            rt,
            core,
            &[(ANN, "when write memo do pour memo to memo; end")],
        );
    }
}

/// How long the memo is.
fn memo_len(core: &Core) -> usize {
    if core.setup().contents().is_empty() {
        return 0;
    }
    match core.content(DocId::new(0)) {
        Some(content) => content.bytes().len(),
        None => 0,
    }
}

/// A text that has grown as far as it may stands in the next run.
#[test]
fn a_long_text(rt: HostRuntime) {
    let mut core = base_core(&rt);
    grow(&rt, &mut core);
    let next = core_over(&rt, next_of(&rt, &core));
    drop(core);
    assert_eq!(rt; memo_len(&next), 65_536);
    drop(next);
}

/// While something has not ended, that is told.
#[test]
fn not_ended(rt: HostRuntime) {
    let mut core = base_core(&rt);
    assert!(rt; have_all_ended(&core));
    let _place = admit(&rt, &mut core, ANN, "when read memo do show memo; end");
    assert!(rt; !have_all_ended(&core));
    drop(core);
}
